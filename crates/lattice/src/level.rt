// The clearance test for many places of one height: what the height alone decides is found once.
ghost use Rattle.std.specs.Prelude.{◌≡◌, IfSome};
ghost use Rattle.float.specs.Ops.{◌≤ᶠ◌};
ghost use Rattle.regions.specs.Clearance.{signed_clearance};
ghost use Rattle.regions.specs.Pieces.{rings_of};
ghost use Rattle.lattice.specs.Level.{Fits};

use crate::crossings::{inside_level, near_crossings};
use crate::edges::{Edge, keeps_edges, near_edges};
use crate::site::Site;
use glyphs::rect::Point;

// The edges near a height and where it crosses the rings, ring after ring up to each ring's end.
#[derive(Clone, Copy)]
pub struct Level<'a> {
    pub edges: &'a [Edge],
    pub crossings: &'a [f64],
    pub ends: &'a [usize],
}

impl Level<'_> {
    // Whether the clearance of a place of the height is at least that of the margin.
    pub fn clears(&self, p: Point, site: &Site) -> bool
        requires { Fits p.y self.now site.now }
        ensures { result ≡ (site.now.margin.least ≤ᶠ signed_clearance p.x p.y (rings_of site.now.piece)) }
    {
        if !inside_level(p.x, self.crossings, self.ends) {
            return false;
        }
        keeps_edges(p, self.edges, site.margin)
    }
}

// Room for what is found of a height. Arrays, as a vector of a fixed room writes blanks over what it drops, for each row.
#[derive(Default, Drop)]
pub struct LevelRoom {
    pub edges: [Edge; 64],
    pub crossings: [f64; 32],
    pub ends: [usize; 16],
}

impl LevelRoom {
    // Finds the edges near the height y and where it crosses the rings, where they fit.
    pub fn find(&mut self, y: f64, site: Site) -> Option<Level<'_>>
        ensures { IfSome result (λ level. Fits y level site.entry) }
    {
        if !(site.margin.least > 0.0) {
            return None;
        }
        let m = near_edges(y, site, &mut self.edges)?;
        let (c, k) = near_crossings(y, site.piece, &mut self.crossings, &mut self.ends)?;
        Some(Level {
            edges: &self.edges[..m],
            crossings: &self.crossings[..c],
            ends: &self.ends[..k],
        })
    }
}
