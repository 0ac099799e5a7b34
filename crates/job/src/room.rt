// Row 14: the room that a job's sheet may want.
ghost use Rattle.std.specs.Prelude.{◌≡◌, ◌+◌, ◌≤◌, length};
ghost use Rattle.laws.specs.Every.{Every};
ghost use Rattle.job.specs.Job.{row_room, rows_room};
ghost use Rattle.job.specs.Rows.{Fits};

use discs::rows::{Row, is_left_in};

fn row_room(row: Row) -> usize
    requires { Fits row }
    ensures { (result ≡ row_room row) × (result ≤ 32037) }
{
    if is_left_in(row) {
        return 5 + row.len + 16 * row.count;
    }
    0
}

pub fn sheet_room(rows: &[Row]) -> usize
    requires { (length rows.now ≤ 64) × Every Fits rows.now }
    ensures { result ≡ 15 + rows_room rows.now }
{
    let mut room = 15;
    for row in rows {
        room += row_room(*row);
    }
    room
}
