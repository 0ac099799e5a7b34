// A clearance whose root is not taken: the square of the distance inside the piece, and outside the clearance itself,
// which is not above zero. Most that is asked of a clearance asks for no root.
ghost use Rattle.std.specs.Prelude.{◌≡◌};
ghost use Rattle.float.specs.Ops.{◌<ᶠ◌};
ghost use Rattle.regions.specs.Pieces.{rings_of};
ghost use Rattle.regions.specs.Unrooted.{unrooted, rooted};

use crate::clearance::clearance;
use crate::margin::Margin;
use crate::piece::RegionPiece;

pub fn unrooted_clearance(px: f64, py: f64, piece: RegionPiece) -> f64
    ensures { result ≡ unrooted px py (rings_of piece.entry) }
{
    clearance(px, py, piece, false)
}

// The clearance.
pub fn rooted(u: f64) -> f64
    ensures { result ≡ rooted u }
{
    if u < 0.0 {
        return u;
    }
    float::root(u)
}

// Whether the clearance is below that of the margin: a root is taken only between the margin's squares.
pub fn rooted_below(u: f64, margin: Margin) -> bool
    ensures { result ≡ (rooted u <ᶠ margin.least) }
{
    if u >= margin.high {
        return false;
    }
    if (u >= 0.0) & (u < margin.low) {
        return true;
    }
    rooted(u) < margin.least
}
