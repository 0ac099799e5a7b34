// The zones of the sheet: each is packed into the work slices, then put.
ghost use Rattle.std.specs.Prelude.{◌≡◌, true, ◌+◌, ◌-◌, ◌*◌, ◌≤◌, length, take};
ghost use mathlib.Core.List.{flatten};
ghost use Rattle.laws.specs.Lists.{written};
ghost use Rattle.glyphs.specs.Spots.{flat};
ghost use Rattle.sheet.specs.Sheet.{placement_bytes};
ghost use Rattle.sheet.specs.Steps.{Put};
ghost use Rattle.discs.specs.Region.{placed_in};
ghost use Rattle.discs.specs.PlaceGlyphs.{pack};
ghost use Rattle.discs.specs.Floor.{cut, row_is_left_in};
ghost use Rattle.discs.specs.Bundles.{IsPackable, SameWork};
ghost use Rattle.job.specs.Job.{row_room, rows_room};
ghost use Rattle.plan.specs.Bundled.{zone_spots, zone_placed, zone_bytes, ZoneFair, all_placed, all_bytes, AllFair};
ghost use Rattle.plan.specs.Bytes.{placement_of};

use crate::parts::part;
use crate::setting::Setting;
use discs::bundle::{PackingAt, Work, Zones};
use discs::options::GlyphOptions;
use discs::region::pack_region;
use discs::rows::{Row, ZoneAt, is_left_in};
use discs::trial::context_at;
use discs::zone::region_at;
use glyphs::mode::PackMode;
use glyphs::options::ObstaclePolicy;
use sheet::Writer;

// The mode of the final packing.
fn pack_mode(options: GlyphOptions) -> PackMode
    ensures { result ≡ pack options }
{
    match options.obstacle_policy {
        ObstaclePolicy::BestEffort => PackMode::PACK,
        ObstaclePolicy::Strict => PackMode {
            strict_obstacles: true,
            ..PackMode::PACK
        },
    }
}

// Packs a zone: its spots to the front of the lent ones, and how many they are; none without a size.
fn place_zone(setting: Setting<'_>, zones: Zones<'_>, zone: ZoneAt, work: &mut Work<'_>) -> usize
    requires zone { IsPackable zones zone.row zone.at }
    requires near { length setting.packing.obstacles.now ≤ length work.old.lent.near.now }
    requires left_in { row_is_left_in zone.row ≡ true }
    ensures counted { result ≡ placed_in (zone_spots setting.entry zones.entry zone.row zone.at) }
    ensures spots { work.new.spots.now ≡ written (flat (flatten (zone_spots setting.entry zones.entry zone.row zone.at))) work.old.spots.now }
    ensures same { SameWork work.old work.new }
{
    let Some(size) = setting.size else {
        return 0;
    };
    let packing = setting.packing;
    let how = PackingAt {
        packing,
        ctx: context_at(packing.options, pack_mode(packing.options), size.radius),
    };
    let region = region_at(zones, zone);
    pack_region(how, region, &mut work.lent, &mut work.spots[..])
}

// Puts a zone with the spots that lie in front of `spots`. A spot is two floats, of a slice that C lends.
fn put_placement(writer: &mut Writer<'_>, s: &[u8], row: Row, placed: usize, spots: &[f64])
    requires room { writer.old.at + 5 + row.len + 16 * placed ≤ length writer.old.sheet.now }
    requires key { row.key + row.len ≤ length s.now }
    requires placed { placed ≤ row.count }
    requires spots { placed * 2 ≤ length spots.now }
    ensures { Put (placement_bytes (placement_of s.now row placed spots.now)) 1 writer.old writer.new }
{
    writer.put_zone(part(s, row.key, row.len), placed, row.count - placed);
    writer.put_spots(&spots[..placed * 2]);
}

// Packs and puts a zone, where it is left in.
fn put_row(
    setting: Setting<'_>,
    zones: Zones<'_>,
    zone: ZoneAt,
    work: &mut Work<'_>,
    writer: &mut Writer<'_>,
)
    requires zone { IsPackable zones zone.row zone.at }
    requires near { length setting.packing.obstacles.now ≤ length work.old.lent.near.now }
    requires fair { ZoneFair setting zones zone.row zone.at }
    requires room { writer.old.at + row_room zone.row ≤ length writer.old.sheet.now }
    ensures put { Put
        (zone_bytes setting.entry zones.entry zone.row zone.at)
        (length (zone_placed setting.entry zones.entry zone.row zone.at))
        writer.old writer.new }
    ensures room { writer.new.at ≤ writer.old.at + row_room zone.row }
    ensures same { SameWork work.old work.new }
{
    if !is_left_in(zone.row) {
        return;
    }
    let placed = place_zone(setting, zones, zone, work);
    put_placement(writer, zones.bytes, zone.row, placed, work.spots);
}

// Packs and puts the zones left in.
pub fn put_zones(
    setting: Setting<'_>,
    zones: Zones<'_>,
    work: &mut Work<'_>,
    writer: &mut Writer<'_>,
)
    requires near { length setting.packing.obstacles.now ≤ length work.old.lent.near.now }
    requires fair { AllFair setting zones }
    requires room { writer.old.at + rows_room zones.layout.rows.now ≤ length writer.old.sheet.now }
    ensures put { Put (all_bytes setting.entry zones.entry) (length (all_placed setting.entry zones.entry)) writer.old writer.new }
    ensures room { writer.new.at ≤ writer.old.at + rows_room zones.entry.layout.rows.now }
    ensures same { SameWork work.old work.new }
{
    for zone in zones.layout.walk() {
        put_row(setting, zones, zone, work, writer);
    }
}
