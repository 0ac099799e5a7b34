// regions.rs, `signed_clearance` of four places at once: each edge is read once, and the four are worked out side by
// side.
ghost use Rattle.std.specs.Prelude.{◌≡◌, true, not, ◌&&◌};
ghost use Rattle.float.specs.Ops.{◌>ᶠ◌};
ghost use Rattle.regions.specs.Pieces.{rings_of, rings_left};
ghost use Rattle.regions.specs.Inside.{intersect, flip, point_in_polygon};
ghost use Rattle.regions.specs.Clearance.{edge_square, closer, within, signed_clearance};
ghost use Rattle.regions.specs.Squares.{least_of_ring, least_of_rings};
ghost use Rattle.regions.specs.Four.{Which, at};

use crate::clearance::closer_edge;
use crate::inside::turned_by;
use crate::piece::{RegionPiece, Rings};
use crate::ring::{after, before};
use glyphs::rect::Point;

// What each of four places has, by name: no index is to be within an array.
#[derive(Clone, Copy)]
pub struct Four<T> {
    pub a: T,
    pub b: T,
    pub c: T,
    pub d: T,
}

// The least squares so far, with those of the edge from a to b.
fn nearer(places: Four<Point>, best: Four<f64>, a: Point, b: Point) -> Four<f64>
    ensures { (k : Which) → at k result ≡ closer (edge_square (at k places).x (at k places).y a.x a.y b.x b.y) (at k best) }
{
    Four {
        a: closer_edge(places.a.x, places.a.y, best.a, a, b),
        b: closer_edge(places.b.x, places.b.y, best.b, a, b),
        c: closer_edge(places.c.x, places.c.y, best.c, a, b),
        d: closer_edge(places.d.x, places.d.y, best.d, a, b),
    }
}

// The least of `start` and the squares of the distances to a ring's edges.
fn ring_squares(places: Four<Point>, start: Four<f64>, ring: &[Point]) -> Four<f64>
    ensures { (k : Which) → at k result ≡ least_of_ring (at k places).x (at k places).y (at k start) ring.now }
{
    let n = ring.len();
    if n < 2 {
        return start;
    }
    let mut best = start;
    for i in 0..n {
        best = nearer(places, best, ring[i], ring[after(n, i)]);
    }
    best
}

// The least squares of all rings.
fn rings_squares(places: Four<Point>, rings: Rings) -> Four<f64>
    ensures { (k : Which) → at k result ≡ least_of_rings (at k places).x (at k places).y (rings_left rings.entry) }
{
    let far = 1.0 / 0.0;
    let mut best = Four {
        a: far,
        b: far,
        c: far,
        d: far,
    };
    for ring in rings {
        best = ring_squares(places, best, ring);
    }
    best
}

// Whether each place has both ends of an edge above it, or neither, so that the edge is crossed for none.
fn on_one_side_of_all(places: Four<Point>, vi: Point, vj: Point) -> bool
    ensures { result ≡ true → (k : Which) → vi.y >ᶠ (at k places).y ≡ vj.y >ᶠ (at k places).y }
{
    let a = (vi.y > places.a.y) == (vj.y > places.a.y);
    let b = (vi.y > places.b.y) == (vj.y > places.b.y);
    let c = (vi.y > places.c.y) == (vj.y > places.c.y);
    let d = (vi.y > places.d.y) == (vj.y > places.d.y);
    a & b & c & d
}

// The flags turned over where the edge between two vertices is crossed.
fn turned_all(places: Four<Point>, inside: Four<bool>, vi: Point, vj: Point) -> Four<bool>
    ensures { (k : Which) → at k result ≡ flip (intersect (at k places).x (at k places).y vi.x vi.y vj.x vj.y) (at k inside) }
{
    if on_one_side_of_all(places, vi, vj) {
        return inside;
    }
    Four {
        a: turned_by(places.a.x, places.a.y, inside.a, vi, vj),
        b: turned_by(places.b.x, places.b.y, inside.b, vi, vj),
        c: turned_by(places.c.x, places.c.y, inside.c, vi, vj),
        d: turned_by(places.d.x, places.d.y, inside.d, vi, vj),
    }
}

fn in_polygon(places: Four<Point>, ring: &[Point]) -> Four<bool>
    ensures { (k : Which) → at k result ≡ point_in_polygon (at k places).x (at k places).y ring.now }
{
    let n = ring.len();
    let mut inside = Four {
        a: false,
        b: false,
        c: false,
        d: false,
    };
    if n < 3 {
        return inside;
    }
    for i in 0..n {
        inside = turned_all(places, inside, ring[i], ring[before(n, i)]);
    }
    inside
}

// A flag is kept where a hole has the place not.
fn kept(inside: Four<bool>, hole: Four<bool>) -> Four<bool>
    ensures { (k : Which) → at k result ≡ at k inside && not (at k hole) }
{
    Four {
        a: inside.a & !hole.a,
        b: inside.b & !hole.b,
        c: inside.c & !hole.c,
        d: inside.d & !hole.d,
    }
}

// Whether each place is inside the outer ring and no hole.
fn in_piece(places: Four<Point>, piece: RegionPiece) -> Four<bool>
    ensures { (k : Which) → at k result ≡ within (at k places).x (at k places).y (rings_of piece.entry) }
{
    let mut inside = in_polygon(places, piece.outer());
    for hole in piece.holes() {
        inside = kept(inside, in_polygon(places, hole));
    }
    inside
}

pub fn four_clearances(places: Four<Point>, piece: RegionPiece) -> Four<f64>
    ensures { (k : Which) → at k result ≡ signed_clearance (at k places).x (at k places).y (rings_of piece.entry) }
{
    let squares = rings_squares(places, piece.rings());
    let inside = in_piece(places, piece);
    let [a, b, c, d] = float::each_root([squares.a, squares.b, squares.c, squares.d]);
    Four {
        a: float::negate_unless(a, inside.a),
        b: float::negate_unless(b, inside.b),
        c: float::negate_unless(c, inside.c),
        d: float::negate_unless(d, inside.d),
    }
}
