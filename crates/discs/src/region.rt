// discs.rs, `pack_region`: a zone's marks over its pieces, which lie end to end in slices.
ghost use Rattle.std.specs.Prelude.{◌*◌, ◌≤◌, length};
ghost use Rattle.regions.specs.Ring.{sum};
ghost use Rattle.discs.specs.Pieces.{PacksAll};
ghost use Rattle.discs.specs.Bundles.{pieces_packed, region_packed, HasRoom, SameLent};

use crate::bundle::{Lent, PackingAt, Region, Share};
use crate::piece::{deepest_from, pack_piece};
use glyphs::hash::fnv1a;
use glyphs::stream::Stream;

// The marks of the pieces, in order: the stream goes on, and the spots of each lie behind those of the one before.
fn pack_pieces(
    how: PackingAt<'_>,
    region: Region<'_>,
    start: Stream,
    lent: &mut Lent<'_>,
    spots: &mut [f64],
) -> usize
    requires room { HasRoom how.packing (sum region.quotas.now) lent.old }
    requires spots { sum region.quotas.now * 2 ≤ length spots.old }
    ensures placed { PacksAll how.entry.ctx.mode (pieces_packed how.entry region.entry start) result spots.new spots.old }
    ensures same { SameLent lent.old lent.new }
{
    let mut rng = start;
    let mut placed = 0;
    for ((piece, quota), deepest) in region.pieces.zip(region.quotas).zip(region.deepest) {
        // A spot is two floats, of a slice that C lends.
        let from = placed * 2;
        let to = from + *quota * 2;
        let share = Share {
            piece,
            quota: *quota,
            deepest: deepest_from(*deepest),
        };
        let taken = pack_piece(how, share, rng, lent, &mut spots[from..to]);
        placed += taken.count;
        rng = taken.rng;
    }
    placed
}

// Writes the spots of a zone to the front of `spots` and answers how many they are; a trial may only count them.
pub fn pack_region(
    how: PackingAt<'_>,
    region: Region<'_>,
    lent: &mut Lent<'_>,
    spots: &mut [f64],
) -> usize
    requires room { HasRoom how.packing (sum region.quotas.now) lent.old }
    requires spots { sum region.quotas.now * 2 ≤ length spots.old }
    ensures placed { PacksAll how.entry.ctx.mode (region_packed how.entry region.entry) result spots.new spots.old }
    ensures same { SameLent lent.old lent.new }
{
    let start = Stream::seeded(how.packing.options.seed, fnv1a(region.key));
    pack_pieces(how, region, start, lent, spots)
}
