// 'The clearance is at least c', asked without all edges and, mostly, without a root.
ghost use Rattle.std.specs.Prelude.{◌≡◌};
ghost use Rattle.float.specs.Ops.{◌≤ᶠ◌};
ghost use Rattle.regions.specs.Pieces.{rings_of, rings_left};
ghost use Rattle.regions.specs.Clearance.{min_dist_to_rings, signed_clearance};

use crate::clearance::{inside_piece, ring_square, signed_clearance};
use crate::margin::Margin;
use crate::piece::{RegionPiece, Rings};

// Whether the distance from (px, py) to each edge is at least the clearance. The rings after one that is too near are
// not looked at.
fn dist_at_least(px: f64, py: f64, rings: Rings, margin: Margin) -> bool
    ensures { result ≡ (margin.least ≤ᶠ min_dist_to_rings px py (rings_left rings.entry)) }
{
    let low = margin.low;
    let mut best = 1.0 / 0.0;
    for ring in rings {
        best = ring_square(px, py, best, ring);
        if best < low {
            return false;
        }
    }
    margin.root_at_least(best)
}

// Whether the clearance of (px, py) is at least that of the margin.
pub fn clears(px: f64, py: f64, piece: RegionPiece, margin: Margin) -> bool
    ensures { result ≡ (margin.least ≤ᶠ signed_clearance px py (rings_of piece.entry)) }
{
    if margin.least > 0.0 {
        if !inside_piece(px, py, piece) {
            return false;
        }
        return dist_at_least(px, py, piece.rings(), margin);
    }
    margin.least <= signed_clearance(px, py, piece)
}

// Whether the clearance of (px, py) is at least `c`.
pub fn clearance_at_least(px: f64, py: f64, piece: RegionPiece, c: f64) -> bool
    ensures { result ≡ (c ≤ᶠ signed_clearance px py (rings_of piece.entry)) }
{
    clears(px, py, piece, Margin::of(c))
}
