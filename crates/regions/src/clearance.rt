// regions.rs, `min_dist_to_rings` and `signed_clearance`. The least of the squares is kept and one root taken.
ghost use Rattle.std.specs.Prelude.{◌≡◌, ◌-◌, ◌/◌, ◌<◌, length};
ghost use Rattle.regions.specs.Pieces.{rings_of, rings_left};
ghost use Rattle.regions.specs.Clearance.{along, edge_square, square_at, closer, within, signed_clearance};
ghost use Rattle.regions.specs.Squares.{least_of_ring, least_of_rings, least_from};
ghost use Rattle.regions.specs.Unrooted.{rooted_if};

use crate::inside::point_in_polygon;
use crate::piece::{RegionPiece, Rings};
use crate::ring::after;
use crate::small::ring_clearance;
use glyphs::rect::Point;

// Where the point nearest to a place lies on an edge: `dot` of the squared length `len2`, held to the edge. There is no
// branch, so that several edges or places can be worked out side by side.
fn along_edge(dot: f64, len2: f64) -> f64
    ensures { result ≡ along dot len2 }
{
    let t = dot / len2;
    let from = if t < 0.0 { 0.0 } else { t };
    let held = if 1.0 < from { 1.0 } else { from };
    if len2 > 0.0 { held } else { 0.0 }
}

// The square of the distance from (px, py) to the edge from a to b.
pub fn edge_square(px: f64, py: f64, a: Point, b: Point) -> f64
    ensures { result ≡ edge_square px py a.x a.y b.x b.y }
{
    let dx = b.x - a.x;
    let dy = b.y - a.y;
    let t = along_edge((px - a.x) * dx + (py - a.y) * dy, dx * dx + dy * dy);
    let ex = px - (a.x + t * dx);
    let ey = py - (a.y + t * dy);
    ex * ex + ey * ey
}

// The source's own test: of NaN and of the two zeros it keeps what neither `min` does.
pub fn lesser(d: f64, best: f64) -> f64
    ensures { result ≡ closer d best }
{
    if d < best {
        return d;
    }
    best
}

// The lesser of `best` and the square of the distance to the edge from a to b.
pub fn closer_edge(px: f64, py: f64, best: f64, a: Point, b: Point) -> f64
    ensures { result ≡ closer (edge_square px py a.x a.y b.x b.y) best }
{
    lesser(edge_square(px, py, a, b), best)
}

// The lesser of `best` and the square of the distance to edge `i`.
fn closer_at(px: f64, py: f64, best: f64, ring: &[Point], i: usize) -> f64
    requires { i < length ring.now }
    ensures { result ≡ closer (square_at px py ring.now (length ring.now) i) best }
{
    closer_edge(px, py, best, ring[i], ring[after(ring.len(), i)])
}

// The least of the second half of a ring's edges, of which `best` is that of as many as the first half has: an odd
// number of edges leaves the last one.
pub fn with_last(px: f64, py: f64, best: f64, ring: &[Point], half: usize) -> f64
    requires { (half ≡ length ring.now / 2) × (best ≡ least_from px py ring.now (length ring.now) half half) }
    ensures { result ≡ least_from px py ring.now (length ring.now) half (length ring.now - half) }
{
    let i = half + half;
    if i < ring.len() {
        return closer_at(px, py, best, ring, i);
    }
    best
}

// The least of `start` and the squares of the distances to a ring's edges. The two halves are walked side by side, the
// one at a, the other at b.
pub fn ring_square(px: f64, py: f64, start: f64, ring: &[Point]) -> f64
    ensures { result ≡ least_of_ring px py start ring.now }
{
    let n = ring.len();
    if n < 2 {
        return start;
    }
    let half = n / 2;
    let mut best = start;
    let mut other = 1.0 / 0.0;
    let mut a = ring[0];
    let mut b = ring[half];
    for i in 0..half {
        let c = ring[i + 1];
        let d = ring[after(n, half + i)];
        best = closer_edge(px, py, best, a, c);
        other = closer_edge(px, py, other, b, d);
        a = c;
        b = d;
    }
    lesser(with_last(px, py, other, ring, half), best)
}

// The least square of all rings.
pub fn rings_square(px: f64, py: f64, rings: Rings) -> f64
    ensures { result ≡ least_of_rings px py (rings_left rings.entry) }
{
    let mut best = 1.0 / 0.0;
    for ring in rings {
        best = ring_square(px, py, best, ring);
    }
    best
}

// Whether (x, y) is inside the outer ring and no hole. Without holes there is no branch on the answer.
pub fn inside_piece(x: f64, y: f64, piece: RegionPiece) -> bool
    ensures { result ≡ within x y (rings_of piece.entry) }
{
    let inside = point_in_polygon(x, y, piece.outer());
    if piece.sizes.len() == 1 {
        return inside;
    }
    if !inside {
        return false;
    }
    for hole in piece.holes() {
        if point_in_polygon(x, y, hole) {
            return false;
        }
    }
    true
}

// The root of a square, with a minus outside; unless `always` is set, only outside. Without the flag the two walks that end
// here, of a small ring and of a piece, would each stand twice.
pub fn with_root(square: f64, inside: bool, always: bool) -> f64
    ensures { result ≡ rooted_if always inside square }
{
    if always | !inside {
        return float::negate_unless(float::root(square), inside);
    }
    square
}

// `signed_clearance`, its root taken always or outside only. The inside test stands before the root: nothing in it waits
// for the distance.
pub fn clearance(px: f64, py: f64, piece: RegionPiece, always: bool) -> f64
    ensures { result ≡ rooted_if always (within px py (rings_of piece.entry)) (least_of_rings px py (rings_of piece.entry)) }
{
    let n = piece.sizes[0];
    if (piece.sizes.len() == 1) & ((n >= 3) & (n <= 24)) {
        return ring_clearance(px, py, piece.outer(), always);
    }
    let square = rings_square(px, py, piece.rings());
    let inside = inside_piece(px, py, piece);
    with_root(square, inside, always)
}

pub fn signed_clearance(px: f64, py: f64, piece: RegionPiece) -> f64
    ensures { result ≡ signed_clearance px py (rings_of piece.entry) }
{
    clearance(px, py, piece, true)
}
