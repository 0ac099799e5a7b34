// A job that was read: rows 15 and 16, and the sheet.
ghost use Rattle.std.specs.Prelude.{◌≡◌, ◌+◌, ◌≤◌, length};
ghost use Rattle.job.specs.Job.{job_of, rows_room};
ghost use Rattle.plan.specs.Answer.{answer_in};
ghost use Rattle.plan.specs.Called.{zones_number, Answered};
ghost use Rattle.plan.specs.Bundled.{WasRead};

use crate::answer::Planned;
use crate::floor::plan_pieces;
use crate::memory::Scratch;
use crate::pillars::sanitize_obstacles;
use crate::read::ReadJob;
use crate::searches::search_zones;
use crate::shares::share_zones;
use deepest::waiting::NoRoom;
use discs::bundle::{Lent, Packing, Work, Zones};
use format::refusal::Refusal;
use glyphs::rect::Rectangle;
use relax::Spreading;

// What a packing is lent, as long as the shortest of the four.
fn lend<'a>(
    near: &'a mut [Rectangle],
    second: &'a mut [f64],
    flags: &'a mut [bool],
    spots: &'a mut [f64],
) -> Work<'a>
    requires second { 4000 ≤ length second.old }
    requires flags { 2000 ≤ length flags.old }
    requires spots { 4000 ≤ length spots.old }
    ensures { length result.lent.near.now ≡ length near.old }
{
    Work {
        lent: Lent {
            near,
            second,
            flags,
        },
        spots,
    }
}

// Rows 15 and 16, and the sheet, of a job that was read.
pub fn plan_zones(
    job: ReadJob<'_, '_>,
    scratch: &mut Scratch,
    first: &mut [f64; 8000],
    second: &mut [f64; 8000],
    sheet: &mut [u8],
) -> Result<Planned, Refusal>
    requires read { WasRead job }
    requires pieces { length job.layout.rings.now ≤ 1024 }
    requires obstacles { length job.obstacles.now ≤ 64 }
    requires room { 15 + rows_room job.layout.rows.now ≤ length sheet.old }
    ensures { Answered (zones_number (job_of job.entry.bytes.now)) (job_of job.entry.bytes.now) (answer_in result) sheet.old sheet.new }
{
    share_zones(job, &mut scratch.quotas[..]);
    if let Err(NoRoom) = search_zones(job, &scratch.quotas[..], first, &mut scratch.deepest[..]) {
        return Err(Refusal::SearchRoom);
    }
    scratch.pillars.clear();
    sanitize_obstacles(job.obstacles, &mut scratch.pillars);
    let packing = Packing {
        numbers: Spreading::SOURCE,
        options: job.options,
        obstacles: scratch.pillars.as_slice(),
    };
    let zones = Zones {
        bytes: job.bytes,
        layout: job.layout,
        quotas: &scratch.quotas[..],
        deepest: &scratch.deepest[..],
    };
    let mut work = lend(
        &mut scratch.near[..],
        &mut second[..],
        &mut scratch.flags[..],
        &mut first[..],
    );
    plan_pieces(packing, zones, &mut work, sheet)
}
