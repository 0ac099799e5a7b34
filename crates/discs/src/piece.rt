// discs.rs, `pack_region`: one piece, whose deepest point is handed in, by the arrangement.
ghost use Rattle.std.specs.Prelude.{◌≡◌, ◌*◌, ◌<◌, ◌≤◌, length};
ghost use Rattle.discs.specs.Pieces.{deepest_from, Packs};
ghost use Rattle.discs.specs.Bundles.{lattice_packed, scatter_packed, share_packed, HasRoom, SameLent};

use crate::bundle::{Lent, PackingAt, Share};
use deepest::search::Deepest;
use glyphs::options::GlyphArrangement;
use glyphs::rect::{Point, Rectangle};
use glyphs::stream::Stream;
use lattice::uniform::{pack_uniform_piece, probe_uniform_piece};
use scatter::low::{lone_anchor, pack_low_discrepancy_piece};
use scatter::random::{Taken, pack_random_piece};

// A deepest point as it is read: there is none where the clearance is not above 0.
pub fn deepest_from(found: Deepest) -> Deepest
    ensures { result ≡ deepest_from found }
{
    let Deepest::Found(_, _, clearance) = found else {
        return found;
    };
    if clearance > 0.0 {
        return found;
    }
    Deepest::Nothing
}

// A lattice about the deepest point; no marks where there is none. A trial only counts them. Whether it is rectangular
// picks no step here: it is data of the lattice.
fn pack_lattice(
    how: PackingAt<'_>,
    share: Share<'_>,
    rectangular: bool,
    near: &mut [Rectangle],
    blocked: &mut [f64],
    spots: &mut [f64],
) -> usize
    requires some { 0 < share.quota }
    requires near { length how.packing.obstacles.now ≤ length near.old }
    requires blocked { share.quota * 2 ≤ length blocked.old }
    requires spots { length spots.old ≡ share.quota * 2 }
    ensures { Packs how.entry.ctx.mode share.entry.quota (lattice_packed how.entry share.entry rectangular) result spots.new spots.old }
{
    let Deepest::Found(x, y, _) = share.deepest else {
        return 0;
    };
    let poi = Point { x, y };
    let ctx = how.ctx;
    let obstacles = how.packing.obstacles;
    let piece = share.piece;
    let n = share.quota;
    if ctx.mode.spread {
        return pack_uniform_piece(
            poi,
            piece,
            n,
            ctx,
            obstacles,
            rectangular,
            near,
            blocked,
            spots,
        );
    }
    probe_uniform_piece(poi, piece, n, ctx, obstacles, rectangular, near)
}

// A sequence of low discrepancy; a lone mark tries the deepest point first.
fn pack_low_discrepancy(
    how: PackingAt<'_>,
    share: Share<'_>,
    near: &mut [Rectangle],
    spots: &mut [f64],
) -> usize
    requires near { length how.packing.obstacles.now ≤ length near.old }
    requires spots { length spots.old ≡ share.quota * 2 }
    ensures { Packs how.entry.ctx.mode share.entry.quota (scatter_packed how.entry share.entry) result spots.new spots.old }
{
    let ctx = how.ctx;
    let obstacles = how.packing.obstacles;
    let piece = share.piece;
    let n = share.quota;
    let Deepest::Found(x, y, _) = share.deepest else {
        return pack_low_discrepancy_piece(None, piece, n, ctx, obstacles, near, spots);
    };
    let poi = Point { x, y };
    let anchor = lone_anchor(poi, piece, n, ctx, obstacles, &mut near[..]);
    pack_low_discrepancy_piece(anchor, piece, n, ctx, obstacles, near, spots)
}

// The marks of one piece, passed over where it has none; answers how many are placed, with the stream after them.
pub fn pack_piece(
    how: PackingAt<'_>,
    share: Share<'_>,
    rng: Stream,
    lent: &mut Lent<'_>,
    spots: &mut [f64],
) -> Taken
    requires room { HasRoom how.packing share.quota lent.old }
    requires spots { length spots.old ≡ share.quota * 2 }
    ensures placed { Packs how.entry.ctx.mode share.entry.quota (share_packed how.entry share.entry rng).placed result.count spots.new spots.old }
    ensures rng { result.rng ≡ (share_packed how.entry share.entry rng).rng }
    ensures same { SameLent lent.old lent.new }
{
    let unwanted = share.quota == 0;
    if unwanted {
        return Taken { count: 0, rng };
    }
    let packing = how.packing;
    let near = &mut lent.near[..];
    let second = &mut lent.second[..];
    let arrangement = packing.options.arrangement;
    match arrangement {
        GlyphArrangement::Uniform => {
            let m = pack_lattice(how, share, false, near, second, spots);
            Taken { count: m, rng }
        }
        GlyphArrangement::Rectangular => {
            let m = pack_lattice(how, share, true, near, second, spots);
            Taken { count: m, rng }
        }
        GlyphArrangement::LowDiscrepancy => {
            let m = pack_low_discrepancy(how, share, near, spots);
            Taken { count: m, rng }
        }
        GlyphArrangement::Random => pack_random_piece(
            packing.numbers,
            share.piece,
            share.quota,
            packing.options.max_attempts,
            how.ctx,
            packing.obstacles,
            rng,
            near,
            second,
            &mut lent.flags[..],
            spots,
        ),
    }
}
