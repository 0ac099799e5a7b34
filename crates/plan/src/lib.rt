//! The call from job bytes to sheet.
#![tactic(auto)]

ghost use Rattle.std.specs.Prelude.{◌≡◌, ◌≤◌, [], length};
ghost use Rattle.job.specs.Head.{version_at};
ghost use Rattle.job.specs.Job.{job_of};
ghost use Rattle.job.specs.Plan.{plan_of};
ghost use Rattle.plan.specs.Answer.{answer_in};
ghost use Rattle.plan.specs.Called.{items_number, Answered, answer_of};

pub mod answer;
pub mod clear;
pub mod floor;
pub mod memory;
pub mod parts;
pub mod pillars;
pub mod read;
pub mod rows;
pub mod searches;
pub mod setting;
pub mod shares;
pub mod zones;

use crate::answer::Planned;
use crate::clear::clear;
use crate::memory::{Memory, Scratch};
use crate::read::ReadJob;
use crate::rows::plan_zones;
use arrayvec::ArrayVec;
use deepest::search::Deepest;
use discs::layout::Layout;
use format::pieces::JobPieces;
use format::reader::Reader;
use format::refusal::Refusal;
use glyphs::rect::Rectangle;
use job::head::{check_work, open};
use job::read::read_items;
use job::room::sheet_room;

// Rows 3 to 14, then the zones.
fn plan_items(
    mut job: Reader,
    first: &mut [f64; 8000],
    second: &mut [f64; 8000],
    sheet: &mut [u8],
    memory: &mut Memory,
) -> Result<Planned, Refusal>
    requires at { job.at ≡ version_at }
    requires bytes { length job.bytes.now ≤ 65536 }
    requires obstacles { memory.old.obstacles.items ≡ [] }
    requires points { memory.old.pieces.points.items ≡ [] }
    requires sizes { memory.old.pieces.sizes.items ≡ [] }
    requires rings { memory.old.pieces.rings.items ≡ [] }
    requires rows { memory.old.rows.items ≡ [] }
    ensures { Answered (items_number job.entry.bytes.now (length sheet.old)) (job_of job.entry.bytes.now) (answer_in result) sheet.old sheet.new }
{
    let options = read_items(
        &mut job,
        &mut memory.obstacles,
        &mut memory.pieces,
        &mut memory.rows,
    )?;
    let rows = memory.rows.as_slice();
    if sheet_room(rows) > sheet.len() {
        return Err(Refusal::SheetLength);
    }
    let layout = Layout {
        rows,
        rings: memory.pieces.rings.as_slice(),
        sizes: memory.pieces.sizes.as_slice(),
        points: memory.pieces.points.as_slice(),
    };
    let job = ReadJob {
        bytes: job.bytes,
        options,
        obstacles: memory.obstacles.as_slice(),
        layout,
    };
    plan_zones(job, &mut memory.scratch, first, second, sheet)
}

// The same, with the memory that is not lent.
fn plan_job(
    job: Reader,
    first: &mut [f64; 8000],
    second: &mut [f64; 8000],
    sheet: &mut [u8],
) -> Result<Planned, Refusal>
    requires at { job.at ≡ version_at }
    requires bytes { length job.bytes.now ≤ 65536 }
    ensures { Answered (items_number job.entry.bytes.now (length sheet.old)) (job_of job.entry.bytes.now) (answer_in result) sheet.old sheet.new }
{
    // All of it is zeros, which are set where they lie: another deepest point, say none, would be made elsewhere and copied.
    let mut memory = Memory {
        obstacles: ArrayVec::new(),
        pieces: JobPieces::new(),
        rows: ArrayVec::new(),
        scratch: Scratch {
            quotas: [0; 1024],
            deepest: [Deepest::Found(0.0, 0.0, 0.0); 1024],
            pillars: ArrayVec::new(),
            near: [Rectangle::default(); 64],
            flags: [false; 2000],
        },
    };
    plan_items(job, first, second, sheet, &mut memory)
}

// The call: reads the job, and writes its sheet to the front of `sheet`.
pub fn plan(
    s: &[u8],
    first: &mut [f64],
    second: &mut [f64],
    sheet: &mut [u8],
) -> Result<Planned, Refusal>
    ensures answer { answer_in result ≡ answer_of (plan_of s.now first.old second.old sheet.old) }
    ensures first { first.new ≡ (plan_of s.now first.old second.old sheet.old).first }
    ensures second { second.new ≡ (plan_of s.now first.old second.old sheet.old).second }
    ensures sheet { sheet.new ≡ (plan_of s.now first.old second.old sheet.old).sheet }
{
    let job = open(s)?;
    check_work(first.len(), second.len())?;
    // Row 2 left 8,000 in each.
    let first = first.first_chunk_mut::<8000>().unwrap();
    let second = second.first_chunk_mut::<8000>().unwrap();
    let answer = plan_job(job, first, second, sheet);
    clear(first);
    clear(second);
    answer
}
