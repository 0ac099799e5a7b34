// discs.rs: the trial of a radius, `feasible` in `auto_radius`.
ghost use Rattle.std.specs.Prelude.{◌≡◌, ◌≤◌, length};
ghost use Rattle.discs.specs.Radius.{gap_of, boundary_gap_of, context_at};
ghost use Rattle.discs.specs.Bundles.{zone_at, zone_held, fits_in, IsPackable, SameWork};

use crate::bundle::{Packing, PackingAt, Work, Zones};
use crate::options::GlyphOptions;
use crate::region::pack_region;
use crate::rows::{ZoneAt, is_left_in};
use crate::zone::region_at;
use glyphs::mode::PackMode;
use lattice::context::PackCtx;

// The gap between marks.
fn gap_of(options: GlyphOptions) -> f64
    ensures { result ≡ gap_of options }
{
    float::max(options.gap, 0.0)
}

// The gap to walls and pillars.
pub fn boundary_gap_of(options: GlyphOptions) -> f64
    ensures { result ≡ boundary_gap_of options }
{
    float::max(options.boundary_gap.unwrap_or(gap_of(options)), 0.0)
}

pub fn context_at(options: GlyphOptions, mode: PackMode, r: f64) -> PackCtx
    ensures { result ≡ context_at options mode r }
{
    PackCtx {
        r,
        gap: gap_of(options),
        boundary_gap: boundary_gap_of(options),
        mode,
    }
}

// Whether a zone holds its marks, in a trial; one that is left out does.
fn holds(how: PackingAt<'_>, zones: Zones<'_>, zone: ZoneAt, work: &mut Work<'_>) -> bool
    requires packable { IsPackable zones zone.row zone.at }
    requires near { length how.packing.obstacles.now ≤ length work.old.lent.near.now }
    ensures held { result ≡ zone_held how.entry (zone_at zones.entry zone.row zone.at) }
    ensures same { SameWork work.old work.new }
{
    if !is_left_in(zone.row) {
        return true;
    }
    let region = region_at(zones, zone);
    let placed = pack_region(how, region, &mut work.lent, &mut work.spots[..]);
    placed == zone.row.count
}

// Whether every zone left in holds its marks at the radius `r`.
pub fn feasible(r: f64, packing: Packing<'_>, zones: Zones<'_>, work: &mut Work<'_>) -> bool
    requires { length packing.obstacles.now ≤ length work.old.lent.near.now }
    ensures fits { result ≡ fits_in packing.entry zones.entry packing.entry.obstacles.now r }
    ensures same { SameWork work.old work.new }
{
    let how = PackingAt {
        packing,
        ctx: context_at(packing.options, PackMode::PROBE, r),
    };
    for zone in zones.layout.walk() {
        if !holds(how, zones, zone, work) {
            return false;
        }
    }
    true
}
