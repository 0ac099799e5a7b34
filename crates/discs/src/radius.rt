// discs.rs: `auto_radius`, and the radius that `place_glyphs` packs at.
ghost use Rattle.std.specs.Prelude.{◌≡◌, ◌≤◌, length};
ghost use Rattle.discs.specs.Radius.{auto_radius};
ghost use Rattle.discs.specs.PlaceGlyphs.{size_under, size_for};
ghost use Rattle.discs.specs.Bundles.{fits_in, SameWork};
ghost use Rattle.discs.specs.Walk.{narrowed};

use crate::bundle::{Packing, Work, Zones};
use crate::options::Radius;
use crate::trial::feasible;
use glyphs::rect::is_finite;

// The radius found, and how many trials were made.
#[derive(Clone, Copy)]
pub struct Search {
    pub best: Option<f64>,
    pub trials: usize,
}

// The radius to pack at, and the trials made for it, free of obstacles and with them.
#[derive(Clone, Copy)]
pub struct Size {
    pub radius: f64,
    pub free_trials: usize,
    pub obstacle_trials: usize,
}

// What is left of the search: a radius that fits, one that does not, and the best one.
#[derive(Clone, Copy)]
pub struct Bracket {
    pub lo: f64,
    pub hi: f64,
    pub best: Option<f64>,
}

// The search after a trial of `mid`.
fn narrowed(bracket: Bracket, mid: f64, fits: bool) -> Bracket
    ensures { result ≡ narrowed bracket mid fits }
{
    if fits {
        return Bracket {
            lo: mid,
            hi: bracket.hi,
            best: Some(mid),
        };
    }
    Bracket {
        lo: bracket.lo,
        hi: mid,
        best: bracket.best,
    }
}

// The largest radius at which every zone left in holds its marks: one trial, and at most 24 further ones.
fn auto_radius(r_hi: f64, packing: Packing<'_>, zones: Zones<'_>, work: &mut Work<'_>) -> Search
    requires { length packing.obstacles.now ≤ length work.old.lent.near.now }
    ensures search { result ≡ auto_radius (fits_in packing.entry zones.entry packing.entry.obstacles.now) r_hi }
    ensures same { SameWork work.old work.new }
{
    if feasible(r_hi, packing, zones, work) {
        return Search {
            best: Some(r_hi),
            trials: 1,
        };
    }
    let mut b = Bracket {
        lo: 0.0,
        hi: r_hi,
        best: None,
    };
    for made in 1..25 {
        if b.hi - b.lo <= 1e-3 * r_hi {
            return Search {
                best: b.best,
                trials: made,
            };
        }
        let mid = 0.5 * (b.lo + b.hi);
        let fits = feasible(mid, packing, zones, work);
        b = narrowed(b, mid, fits);
    }
    Search {
        best: b.best,
        trials: 25,
    }
}

// The size under a ceiling: free of obstacles, then with them down to half of that.
fn size_under(r_hi: f64, packing: Packing<'_>, zones: Zones<'_>, work: &mut Work<'_>) -> Size
    requires { length packing.obstacles.now ≤ length work.old.lent.near.now }
    ensures size { result ≡ size_under (fits_in packing.entry zones.entry) packing.entry.obstacles.now r_hi }
    ensures same { SameWork work.old work.new }
{
    let unwalled = Packing {
        obstacles: &packing.obstacles[..0],
        ..packing
    };
    let free = auto_radius(r_hi, unwalled, zones, work);
    let r_free = free.best.unwrap_or(0.25 * r_hi);
    if packing.obstacles.is_empty() {
        return Size {
            radius: r_free,
            free_trials: free.trials,
            obstacle_trials: 0,
        };
    }
    let walled = auto_radius(r_hi, packing, zones, work);
    Size {
        radius: float::max(walled.best.unwrap_or(0.0), 0.5 * r_free),
        free_trials: free.trials,
        obstacle_trials: walled.trials,
    }
}

// The size that the options ask for, with the ceiling of an automatic radius.
pub fn size_for(
    ceiling: Option<f64>,
    packing: Packing<'_>,
    zones: Zones<'_>,
    work: &mut Work<'_>,
) -> Option<Size>
    requires { length packing.obstacles.now ≤ length work.old.lent.near.now }
    ensures size { result ≡ size_for (fits_in packing.entry zones.entry) packing.entry.obstacles.now packing.entry.options.radius ceiling }
    ensures same { SameWork work.old work.new }
{
    let radius = packing.options.radius;
    if let Radius::Stated(r) = radius {
        if (r > 0.0) & is_finite(r) {
            return Some(Size {
                radius: r,
                free_trials: 0,
                obstacle_trials: 0,
            });
        }
        return None;
    }
    let r_hi = ceiling?;
    Some(size_under(r_hi, packing, zones, work))
}
