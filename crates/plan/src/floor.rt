// A job whose deepest points are found: row 16, its radius, and its sheet.
ghost use Rattle.std.specs.Prelude.{◌≡◌, Ok, Option, ◌+◌, ◌≤◌, length};
ghost use Rattle.laws.specs.Lists.{written};
ghost use Rattle.sheet.specs.Sheet.{sheet_of};
ghost use Rattle.discs.specs.declared.radius.Size.{Size};
ghost use Rattle.discs.specs.Bundles.{SameWork};
ghost use Rattle.job.specs.Job.{rows_room};
ghost use Rattle.job.specs.Plan.{low_fault};
ghost use Rattle.format.specs.Refusals.{fault_of};
ghost use Rattle.plan.specs.Answer.{answer_in};
ghost use Rattle.plan.specs.Bundled.{ceiling_in, all_placed, AllFair, PiecesPlanned};
ghost use Rattle.plan.specs.Sized.{size_of, sheet_to, answer_to};

use crate::answer::Planned;
use crate::setting::Setting;
use crate::zones::put_zones;
use discs::bundle::{Packing, Work, Zones};
use discs::ceiling::analytic_r_hi;
use discs::options::{GlyphOptions, Radius};
use discs::radius::{Size, size_for};
use discs::trial::boundary_gap_of;
use format::refusal::Refusal;
use sheet::Writer;

// The ceiling, which only an automatic radius has.
fn ceiling_of(options: GlyphOptions, zones: Zones<'_>) -> Option<f64>
    ensures { result ≡ ceiling_in options zones.entry }
{
    match options.radius {
        Radius::Stated(_) => None,
        Radius::Auto => analytic_r_hi(boundary_gap_of(options), zones.layout, zones.deepest),
    }
}

// Row 16.
fn check_ceiling(ceiling: Option<f64>) -> Result<(), Refusal>
    ensures { fault_of result ≡ low_fault ceiling }
{
    let Some(r_hi) = ceiling else {
        return Ok(());
    };
    if r_hi >= 0.0009765625 {
        return Ok(());
    }
    Err(Refusal::Ceiling)
}

// The size, and radius 0 without trials where there is none.
fn size_of(sizing: Option<Size>) -> Size
    ensures { result ≡ size_of sizing }
{
    sizing.unwrap_or(Size {
        radius: 0.0,
        free_trials: 0,
        obstacle_trials: 0,
    })
}

// The zones, then the head before them.
fn put_sheet(
    setting: Setting<'_>,
    zones: Zones<'_>,
    work: &mut Work<'_>,
    sheet: &mut [u8],
) -> Planned
    requires near { length setting.packing.obstacles.now ≤ length work.old.lent.near.now }
    requires fair { AllFair setting zones }
    requires room { 15 + rows_room zones.layout.rows.now ≤ length sheet.old }
    ensures answer { answer_in (Ok result) ≡ answer_to setting.entry.size (all_placed setting.entry zones.entry) }
    ensures sheet { sheet.new ≡ written (sheet_of (sheet_to setting.entry.size (all_placed setting.entry zones.entry))) sheet.old }
    ensures same { SameWork work.old work.new }
{
    let mut writer = Writer::new(&mut sheet[..]);
    put_zones(setting, zones, work, &mut writer);
    let size = size_of(setting.size);
    writer.put_head(size.radius);
    Planned {
        length: writer.at,
        free_trials: size.free_trials,
        obstacle_trials: size.obstacle_trials,
    }
}

// Row 16, the radius, and the sheet.
pub fn plan_pieces(
    packing: Packing<'_>,
    zones: Zones<'_>,
    work: &mut Work<'_>,
    sheet: &mut [u8],
) -> Result<Planned, Refusal>
    requires near { length packing.obstacles.now ≤ length work.old.lent.near.now }
    requires fair { (size : Option Size) → AllFair (record { packing = packing; size = size }) zones }
    requires room { 15 + rows_room zones.layout.rows.now ≤ length sheet.old }
    ensures planned { PiecesPlanned packing.entry zones.entry (answer_in result) sheet.old sheet.new }
    ensures same { SameWork work.old work.new }
{
    let ceiling = ceiling_of(packing.options, zones);
    check_ceiling(ceiling)?;
    let size = size_for(ceiling, packing, zones, work);
    let setting = Setting { packing, size };
    Ok(put_sheet(setting, zones, work, sheet))
}
