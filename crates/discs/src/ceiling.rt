// discs.rs, `analytic_r_hi`: the ceiling of an automatic radius, from deepest points that are handed in.
ghost use Rattle.std.specs.Prelude.{◌≡◌, ℕ, ◌≤◌, cond, List};
ghost use Rattle.discs.specs.Radius.{area_of, lowered, if_positive};
ghost use Rattle.discs.specs.Pieces.{deepests_of};
ghost use Rattle.discs.specs.Slices.{pieces_left};
ghost use Rattle.discs.specs.Floor.{row_is_left_in, work_in, deepest_in, handed_r_hi, EachRow, Stands, start};

use crate::layout::Layout;
use crate::piece::deepest_from;
use crate::pieces::Pieces;
use crate::rows::{Row, is_left_in};
use deepest::search::{Deepest, deeper};
use glyphs::rect::is_finite;
use regions::area::piece_area;

// The area of a zone's pieces.
fn area_of(pieces: Pieces<'_>) -> f64
    ensures { result ≡ area_of (pieces_left pieces.entry) }
{
    let mut area = -0.0;
    for piece in pieces {
        area = area + piece_area(piece);
    }
    area
}

// The deepest of a zone's deepest points: the first of equals.
fn deepest_in(deepest: &[Deepest]) -> Deepest
    ensures { result ≡ deepest_in (deepests_of deepest.now) }
{
    let mut best = Deepest::Nothing;
    for found in deepest {
        best = deeper(best, deepest_from(*found));
    }
    best
}

// `r_hi` under the bounds of `n` marks: their zone's deepest point, and its area.
fn lowered(gap: f64, n: usize, r_hi: f64, area: f64, found: Deepest) -> f64
    requires { n ≤ 2000 }
    ensures { result ≡ lowered gap n r_hi area found }
{
    match found {
        Deepest::Nothing => r_hi,
        Deepest::Full => r_hi,
        Deepest::Found(_, _, clearance) => {
            let by_clearance = float::min(r_hi, clearance / (1.0 + gap));
            float::min(
                by_clearance,
                float::root(area / (n as f64 * 3.141592653589793)),
            )
        }
    }
}

// The same of a zone, where it is left in.
fn lowered_by(gap: f64, r_hi: f64, row: Row, pieces: Pieces<'_>, deepest: &[Deepest]) -> f64
    requires { row.count ≤ 2000 }
    ensures { result
        ≡ cond (row_is_left_in row)
        (lowered gap row.count r_hi (area_of (pieces_left pieces.entry)) (deepest_in (deepests_of deepest.now)))
        r_hi }
{
    if !is_left_in(row) {
        return r_hi;
    }
    lowered(gap, row.count, r_hi, area_of(pieces), deepest_in(deepest))
}

// The radius, where it is one.
fn if_positive(r_hi: f64) -> Option<f64>
    ensures { result ≡ if_positive r_hi }
{
    (is_finite(r_hi) & (r_hi > 0.0)).then_some(r_hi)
}

// The greatest radius that the zones left in may have.
pub fn analytic_r_hi(gap: f64, layout: Layout<'_>, deepest: &[Deepest]) -> Option<f64>
    requires { EachRow layout.rings.now layout.sizes.now (Stands layout.rings.now layout.sizes.now layout.points.now deepest.now) layout.rows.now start }
    ensures { (s quotas : List ℕ)
        → result
        ≡ handed_r_hi
        (work_in s layout.entry.rows.now layout.entry.rings.now layout.entry.sizes.now layout.entry.points.now quotas deepest.now)
        gap }
{
    let mut r_hi = 1.0 / 0.0;
    for zone in layout.walk() {
        let p = zone.at.piece;
        let q = p + zone.row.pieces;
        let pieces = layout.pieces(zone);
        r_hi = lowered_by(gap, r_hi, zone.row, pieces, &deepest[p..q]);
    }
    if_positive(r_hi)
}
