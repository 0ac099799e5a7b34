// What is found once for a row of places, and then asked of each of them.
ghost use Rattle.std.specs.Prelude.{◌≡◌};
ghost use Rattle.float.specs.Ops.{◌≤ᶠ◌};
ghost use Rattle.glyphs.specs.Rect.{clear_of_obstacles};
ghost use Rattle.regions.specs.Clearance.{signed_clearance};
ghost use Rattle.regions.specs.Pieces.{rings_of};
ghost use Rattle.lattice.specs.Beside.{BesideOf};
ghost use Rattle.lattice.specs.Found.{Found};
ghost use Rattle.lattice.specs.Level.{Levelled};

use crate::beside::find_beside;
use crate::level::{Level, LevelRoom};
use crate::site::Site;
use glyphs::rect::{Point, Rectangle};
use regions::keeps::clears;
use regions::pillars::clears_obstacles;

// What is near a row of a site: its level, where that fits, else the plain test is asked; and the obstacles that answer
// for all.
#[derive(Clone, Copy)]
pub struct Nearby<'a> {
    pub site: Site<'a>,
    pub level: Option<Level<'a>>,
    pub pillars: &'a [Rectangle],
}

impl Nearby<'_> {
    // Whether the clearance of a place of the row is at least that of the margin.
    pub fn clears_rings(&self, p: Point) -> bool
        requires { Levelled p.y self.now.level self.now.site }
        ensures { result ≡ (self.now.site.margin.least ≤ᶠ signed_clearance p.x p.y (rings_of self.now.site.piece)) }
    {
        let site = &self.site;
        let Some(level) = &self.level else {
            return clears(p.x, p.y, site.piece, site.margin);
        };
        level.clears(p, site)
    }

    // Whether a place of the row keeps the margin to every obstacle.
    pub fn clears_pillars(&self, p: Point) -> bool
        requires { BesideOf p.y self.now.pillars.now self.now.site }
        ensures { result ≡ clear_of_obstacles p.x p.y self.now.site.near.now self.now.site.margin.least }
    {
        clears_obstacles(p.x, p.y, self.pillars, self.site.margin)
    }
}

// Room for what is found.
#[derive(Default, Drop)]
pub struct Tables {
    pub level: LevelRoom,
    pub pillars: [Rectangle; 32],
}

impl Tables {
    // Finds what is near the row at the height y.
    pub fn find<'a, 's: 'a>(&'a mut self, y: f64, site: Site<'s>) -> Nearby<'a>
        ensures site { result.site ≡ site.entry }
        ensures found { Found y result }
    {
        let held = find_beside(y, site, &mut self.pillars);
        let level = self.level.find(y, site);
        let pillars = match held {
            Some(m) => &self.pillars[..m],
            None => site.near,
        };
        Nearby {
            site,
            level,
            pillars,
        }
    }
}
