// polygon.rs, `shoelace_area`, and regions.rs, `RegionPiece::area`.
ghost use Rattle.std.specs.Prelude.{◌≡◌};
ghost use Rattle.regions.specs.Pieces.{rings_of};
ghost use Rattle.regions.specs.Area.{area_step, shoelace_area, piece_area};

use crate::piece::RegionPiece;
use crate::ring::after;
use glyphs::rect::Point;

// `area` with the edge from a to b.
fn area_step(area: f64, a: Point, b: Point) -> f64
    ensures { result ≡ area_step area a.x a.y b.x b.y }
{
    area + a.x * b.y - b.x * a.y
}

pub fn shoelace_area(v: &[Point]) -> f64
    ensures { result ≡ shoelace_area v.now }
{
    let n = v.len();
    if n < 3 {
        return 0.0;
    }
    let mut area = 0.0;
    for i in 0..n {
        area = area_step(area, v[i], v[after(n, i)]);
    }
    float::abs(area / 2.0)
}

// The outer ring's area less the holes', 0 where that is below 0.
pub fn piece_area(piece: RegionPiece) -> f64
    ensures { result ≡ piece_area (rings_of piece.entry) }
{
    let outer = shoelace_area(piece.outer());
    let mut holes = -0.0;
    for hole in piece.holes() {
        holes = holes + shoelace_area(hole);
    }
    float::max(outer - holes, 0.0)
}
