// The job, read in one pass.
ghost use Rattle.std.specs.Prelude.{◌≡◌, ◌+◌, ◌*◌, ◌≤◌, length, IfOk, OnOk};
ghost use Rattle.format.specs.Refusals.{fault_of};
ghost use Rattle.format.specs.Steps.{Room};
ghost use Rattle.job.specs.Head.{version_at};
ghost use Rattle.job.specs.Job.{zones_at, zones_fault, items_fault};
ghost use Rattle.job.specs.Steps.{JobPut, ItemsRead};

use crate::head::{read_obstacles, read_options};
use crate::zones::read_zones;
use arrayvec::ArrayVec;
use discs::options::GlyphOptions;
use discs::rows::Row;
use format::pieces::Pieces;
use format::reader::Reader;
use format::refusal::Refusal;
use glyphs::rect::Rectangle;

// From the zone count to the job's end.
fn read_tail<const POINTS: usize, const RINGS: usize, const PIECES: usize, const ROWS: usize>(
    job: &mut Reader,
    pieces: &mut Pieces<POINTS, RINGS, PIECES>,
    rows: &mut ArrayVec<Row, ROWS>,
) -> Result<(), Refusal>
    requires start { job.old.at ≡ zones_at job.old.bytes.now }
    requires point_room { Room job.old.bytes.now job.old.at pieces.old }
    requires ring_room { length pieces.old.sizes.items + 9216 ≤ RINGS }
    requires piece_room { length pieces.old.rings.items + 1024 ≤ PIECES }
    requires row_room { length rows.old.items + 64 ≤ ROWS }
    ensures fault { fault_of result ≡ zones_fault job.old.bytes.now }
    ensures read { OnOk result (JobPut job.old.bytes.now pieces.old pieces.new rows.old.items rows.new.items) }
    ensures bytes { job.new.bytes ≡ job.old.bytes }
{
    let n = job.item(2, 0, 64, Refusal::Count)? as usize;
    read_zones(job, n, pieces, rows)?;
    if job.at < job.bytes.len() {
        return Err(Refusal::BytesLeftOver);
    }
    Ok(())
}

// Rows 3 to 13 and 7, and the options. Where there is no fault, the job's obstacles and pieces and the row of each zone
// stand behind those that were there.
pub fn read_items<
    const OBSTACLES: usize,
    const POINTS: usize,
    const RINGS: usize,
    const PIECES: usize,
    const ROWS: usize,
>(
    job: &mut Reader,
    obstacles: &mut ArrayVec<Rectangle, OBSTACLES>,
    pieces: &mut Pieces<POINTS, RINGS, PIECES>,
    rows: &mut ArrayVec<Row, ROWS>,
) -> Result<GlyphOptions, Refusal>
    requires start { job.old.at ≡ version_at }
    requires obstacle_room { length obstacles.old.items + 64 ≤ OBSTACLES }
    requires point_room { Room job.old.bytes.now job.old.at pieces.old }
    requires ring_room { length pieces.old.sizes.items + 9216 ≤ RINGS }
    requires piece_room { length pieces.old.rings.items + 1024 ≤ PIECES }
    requires row_room { length rows.old.items + 64 ≤ ROWS }
    ensures fault { fault_of result ≡ items_fault job.old.bytes.now }
    ensures read { IfOk result (λ options.
        ItemsRead job.old.bytes.now options obstacles.old.items obstacles.new.items pieces.old pieces.new rows.old.items rows.new.items) }
    ensures bytes { job.new.bytes ≡ job.old.bytes }
{
    let options = read_options(job)?;
    read_obstacles(job, obstacles)?;
    read_tail(job, pieces, rows)?;
    Ok(options)
}
