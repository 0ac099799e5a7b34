// discs.rs, `escape_obstacles`.
ghost use Rattle.std.specs.Prelude.{◌≡◌, if◌then◌else◌};
ghost use mathlib.Core.List.{foldl};
ghost use Rattle.laws.specs.Orders.{◌then_by◌, is_lt};
ghost use Rattle.float.specs.Total.{total_cmp};
ghost use Rattle.regions.specs.Pieces.{rings_of};
ghost use Rattle.lattice.specs.Escape.{better, exits, consider, best_exit, escape_obstacles};
ghost use Rattle.lattice.specs.Keys.{ordering};

use glyphs::rect::{Point, Rectangle, clear_of_obstacles, squared_distance};
use regions::clearance::signed_clearance;
use regions::piece::RegionPiece;
use std::cmp::Ordering;

// An exit, and the square of its distance from the anchor.
#[derive(Clone, Copy)]
pub struct Exit {
    pub square: f64,
    pub place: Point,
}

// An anchor that is blocked, and what an exit of it has to clear.
#[derive(Clone, Copy)]
struct Blocked<'a> {
    anchor: Point,
    piece: RegionPiece<'a>,
    near: &'a [Rectangle],
    clearance: f64,
}

// How two floats compare by their keys: the library's `total_cmp` asks that neither is a NaN, which has its place here.
fn total_cmp(x: f64, y: f64) -> Ordering
    ensures { ordering result ≡ total_cmp x y }
{
    float::total_key(x).cmp(&float::total_key(y))
}

// Whether an exit comes before another: by squared distance, then x, then y.
fn nearer(exit: Exit, best: Exit) -> bool
    ensures { result ≡ is_lt (total_cmp exit.square best.square then_by total_cmp exit.place.x best.place.x then_by total_cmp exit.place.y best.place.y) }
{
    let p = exit.place;
    let q = best.place;
    total_cmp(exit.square, best.square)
        .then_with(|| total_cmp(p.x, q.x))
        .then_with(|| total_cmp(p.y, q.y))
        .is_lt()
}

// The nearer of what is found so far and an exit.
fn nearest(best: Option<Exit>, exit: Exit) -> Option<Exit>
    ensures { result ≡ (if better best exit then Some exit else best) }
{
    if best.is_none_or(|found| nearer(exit, found)) {
        return Some(exit);
    }
    best
}

impl Blocked<'_> {
    // The nearer of what is found so far and an exit, where the exit clears obstacles and rings.
    fn consider(self, best: Option<Exit>, p: Point) -> Option<Exit>
        ensures { result ≡ consider self.entry.anchor (rings_of self.entry.piece) self.entry.near.now self.entry.clearance best p }
    {
        if !clear_of_obstacles(p.x, p.y, self.near, self.clearance) {
            return best;
        }
        if signed_clearance(p.x, p.y, self.piece) < self.clearance {
            return best;
        }
        let square = squared_distance(p, self.anchor);
        nearest(best, Exit { square, place: p })
    }

    // The four exits of an obstacle.
    fn consider_exits(self, pad: f64, best: Option<Exit>, rect: Rectangle) -> Option<Exit>
        ensures { result ≡ foldl (consider self.entry.anchor (rings_of self.entry.piece) self.entry.near.now self.entry.clearance) best
            (exits self.entry.anchor pad rect) }
    {
        let half_w = 0.5 * rect.width + pad;
        let half_h = 0.5 * rect.height + pad;
        let cx = rect.center.x;
        let cy = rect.center.y;
        let x = self.anchor.x;
        let y = self.anchor.y;
        let left = Point { x: cx - half_w, y };
        let right = Point { x: cx + half_w, y };
        let below = Point { x, y: cy - half_h };
        let above = Point { x, y: cy + half_h };
        let one = self.consider(best, left);
        let two = self.consider(one, right);
        let three = self.consider(two, below);
        self.consider(three, above)
    }

    // The nearest exit of all obstacles.
    fn best_exit(self) -> Option<Exit>
        ensures { result ≡ best_exit self.entry.anchor (rings_of self.entry.piece) self.entry.near.now self.entry.clearance }
    {
        let pad = self.clearance * (1.0 + 0.000000001);
        let mut best = None;
        for rect in self.near {
            best = self.consider_exits(pad, best, *rect);
        }
        best
    }
}

// A blocked anchor moved to the nearest exit, and any other as it is.
pub fn escape_obstacles(
    anchor: Point,
    piece: RegionPiece,
    near: &[Rectangle],
    clearance: f64,
) -> Point
    ensures { result ≡ escape_obstacles anchor (rings_of piece.entry) near.now clearance }
{
    if clear_of_obstacles(anchor.x, anchor.y, near, clearance) {
        return anchor;
    }
    let blocked = Blocked {
        anchor,
        piece,
        near,
        clearance,
    };
    blocked.best_exit().map_or(anchor, |exit| exit.place)
}
