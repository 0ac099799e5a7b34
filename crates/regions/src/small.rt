// regions.rs, `signed_clearance` of a piece of one small ring: its edges are walked once, for distance and inside test.
ghost use Rattle.std.specs.Prelude.{◌≡◌, ◌-◌, ◌/◌, ◌≤◌, length};
ghost use Rattle.float.specs.Ops.{∞};
ghost use Rattle.regions.specs.Inside.{point_in_polygon};
ghost use Rattle.regions.specs.Squares.{least_of_ring};
ghost use Rattle.regions.specs.Turns.{turns_from};
ghost use Rattle.regions.specs.Unrooted.{rooted_if};

use crate::clearance::{closer_edge, lesser, with_last, with_root};
use crate::inside::turned_by;
use crate::ring::after;
use glyphs::rect::Point;

// The turns of the second half of a ring's edges, of which `turned` is those of as many as the first half has: an odd
// number of edges leaves the last one.
fn turned_by_last(x: f64, y: f64, turned: bool, v: &[Point], half: usize) -> bool
    requires { (half ≡ length v.now / 2) × (turned ≡ turns_from x y v.now (length v.now) half half) }
    ensures { result ≡ turns_from x y v.now (length v.now) half (length v.now - half) }
{
    let n = v.len();
    let i = half + half;
    if i < n {
        return turned_by(x, y, turned, v[after(n, i)], v[i]);
    }
    turned
}

// The two halves of the ring are walked side by side, the one at a, the other at b.
pub fn ring_clearance(px: f64, py: f64, ring: &[Point], always: bool) -> f64
    requires { 3 ≤ length ring.now }
    ensures { result ≡ rooted_if always (point_in_polygon px py ring.now) (least_of_ring px py ∞ ring.now) }
{
    let n = ring.len();
    let half = n / 2;
    let mut best = 1.0 / 0.0;
    let mut other = 1.0 / 0.0;
    let mut turned = false;
    let mut turned_other = false;
    let mut a = ring[0];
    let mut b = ring[half];
    for i in 0..half {
        let c = ring[i + 1];
        let d = ring[after(n, half + i)];
        best = closer_edge(px, py, best, a, c);
        other = closer_edge(px, py, other, b, d);
        turned = turned_by(px, py, turned, c, a);
        turned_other = turned_by(px, py, turned_other, d, b);
        a = c;
        b = d;
    }
    let square = lesser(with_last(px, py, other, ring, half), best);
    let inside = turned != turned_by_last(px, py, turned_other, ring, half);
    with_root(square, inside, always)
}
