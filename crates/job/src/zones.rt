// The zones of a job.
ghost use Rattle.std.specs.Prelude.{◌≡◌, ◌+◌, ◌*◌, ◌≤◌, length, IfOk, OnOk};
ghost use Rattle.format.specs.Refusals.{fault_of};
ghost use Rattle.format.specs.Rows.{faults};
ghost use Rattle.format.specs.Steps.{Room};
ghost use Rattle.job.specs.Zones.{first_place, zone_fault, zone_next};
ghost use Rattle.job.specs.Steps.{place_of, ZonePut, ZonesPut};

use crate::before::Before;
use crate::keys::read_key;
use arrayvec::ArrayVec;
use discs::rows::Row;
use format::pieces::Pieces;
use format::reader::Reader;
use format::refusal::Refusal;

fn read_zone<'a, const POINTS: usize, const RINGS: usize, const PIECES: usize>(
    job: &mut Reader<'a>,
    before: &mut Before<'a>,
    pieces: &mut Pieces<POINTS, RINGS, PIECES>,
) -> Result<Row, Refusal>
    requires point_room { Room job.old.bytes.now job.old.at pieces.old }
    requires ring_room { length pieces.old.sizes.items + 144 ≤ RINGS }
    requires piece_room { length pieces.old.rings.items + 16 ≤ PIECES }
    ensures fault { fault_of result ≡ zone_fault job.old.bytes.now (place_of job.old.at before.old) }
    ensures read { IfOk result (λ row. ZonePut job.old.bytes.now job.old.at before.old pieces.old row job.new.at before.new pieces.new) }
    ensures bytes { job.new.bytes ≡ job.old.bytes }
{
    let at = job.at;
    before.key = read_key(job, before.key)?;
    let count = job.item(2, 0, 2000, Refusal::Count)? as usize;
    let marks = before.marks + count;
    let too_many = 2000 < marks;
    if too_many {
        return Err(Refusal::MarkTotal);
    }
    before.marks = marks;
    let row = Row {
        key: at + 1,
        len: before.key.len(),
        count,
        pieces: job.item(1, 0, 16, Refusal::Count)? as usize,
    };
    pieces.read_pieces(job, row.pieces)?;
    Ok(row)
}

// The next `n` zones, the first of the job. Their rows are put behind those of `rows`.
pub fn read_zones<const POINTS: usize, const RINGS: usize, const PIECES: usize, const ROWS: usize>(
    job: &mut Reader,
    n: usize,
    pieces: &mut Pieces<POINTS, RINGS, PIECES>,
    rows: &mut ArrayVec<Row, ROWS>,
) -> Result<(), Refusal>
    requires point_room { Room job.old.bytes.now job.old.at pieces.old }
    requires ring_room { length pieces.old.sizes.items + 144 * n ≤ RINGS }
    requires piece_room { length pieces.old.rings.items + 16 * n ≤ PIECES }
    requires row_room { length rows.old.items + n ≤ ROWS }
    ensures fault { fault_of result ≡ faults (zone_fault job.old.bytes.now) (zone_next job.old.bytes.now) n (first_place job.old.at) }
    ensures read { OnOk result (ZonesPut job.old.bytes.now n job.old.at pieces.old rows.old.items job.new.at pieces.new rows.new.items) }
    ensures bytes { job.new.bytes ≡ job.old.bytes }
{
    let mut before = Before { key: &[], marks: 0 };
    for _i in 0..n {
        rows.push(read_zone(job, &mut before, pieces)?);
    }
    Ok(())
}
