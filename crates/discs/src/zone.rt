// A zone of those that lie in slices, as its packing takes it.
ghost use Rattle.std.specs.Prelude.{◌≡◌};
ghost use Rattle.discs.specs.Pieces.{deepests_of};
ghost use Rattle.discs.specs.Slices.{pieces_left};
ghost use Rattle.discs.specs.Bundles.{zone_at, IsPackable};

use crate::bundle::{Region, Zones};
use crate::rows::ZoneAt;

// The key of a zone, and its pieces with their quotas and deepest points.
pub fn region_at<'a>(zones: Zones<'a>, zone: ZoneAt) -> Region<'a>
    requires { IsPackable zones zone.row zone.at }
    ensures key { result.key.now ≡ (zone_at zones.entry zone.row zone.at).zone.key }
    ensures pieces { pieces_left result.pieces ≡ (zone_at zones.entry zone.row zone.at).zone.pieces }
    ensures quotas { result.quotas.now ≡ (zone_at zones.entry zone.row zone.at).quotas }
    ensures deepest { deepests_of result.deepest.now ≡ (zone_at zones.entry zone.row zone.at).deepests }
{
    let ZoneAt { row, at } = zone;
    let key = row.key;
    let end = key + row.len;
    let p = at.piece;
    let q = p + row.pieces;
    Region {
        key: &zones.bytes[key..end],
        pieces: zones.layout.pieces(zone),
        quotas: &zones.quotas[p..q],
        deepest: &zones.deepest[p..q],
    }
}
