// discs.rs, `lattice_valid_cells`: the walk over the rows of a lattice.
ghost use Rattle.std.specs.Prelude.{◌≤◌};

use crate::row::Row;
use crate::rows::{Field, row_height, row_within};
use crate::span::{ceil_rank, floor_rank};
use glyphs::rect::is_finite;

// A walk visits so many cells and no more.
const HEX_ENUM_CAP: usize = 1_000_000;

// The rows of a lattice that are still to come, from a rank on, of which `left` more cells may be visited.
#[derive(Clone, Copy)]
pub struct Rows {
    pub field: Field,
    pub row_h: f64,
    pub rank: u64,
    pub last: u64,
    pub left: usize,
    pub ghost in_order: { rank ≤ last },
}

impl Rows {
    ghost use Rattle.std.specs.Prelude.{◌≡◌, []};
    ghost use Rattle.lattice.specs.Rows.{walk};
    ghost use Rattle.lattice.specs.Walk.{cells_left};

    // No rows.
    fn none(field: Field) -> Rows
        ensures { cells_left result ≡ [] }
    {
        Rows {
            field,
            row_h: 0.0,
            rank: 0,
            last: 0,
            left: 0,
        }
    }

    // All rows of a lattice; none where its spacing is none.
    pub fn of(field: Field) -> Rows
        ensures { cells_left result ≡ walk field }
    {
        let s = field.lattice.spacing;
        if s <= 0.0 {
            return Rows::none(field);
        }
        if !is_finite(s) {
            return Rows::none(field);
        }
        let row_h = row_height(field.lattice);
        let rank = floor_rank((field.extents.min_y - field.anchor.y) / row_h);
        let last = ceil_rank((field.extents.max_y - field.anchor.y) / row_h);
        if last < rank {
            return Rows::none(field);
        }
        Rows {
            field,
            row_h,
            rank,
            last,
            left: HEX_ENUM_CAP,
        }
    }
}

impl Iterator for Rows {
    type Item = Row;

    ghost use Rattle.std.specs.Iterator.{YieldsFirstBy, item_count};
    ghost use Rattle.lattice.specs.Walk.{cells_in, rows_left};

    ghost next_gives = { YieldsFirstBy cells_in rows_left };

    ghost remaining = { item_count rows_left };

    fn next(&mut self) -> Option<Row> {
        if self.left == 0 {
            return None;
        }
        let row = row_within(self.field, self.row_h, self.rank, self.left);
        if self.rank == self.last {
            self.left = 0;
            return Some(row);
        }
        self.rank += 1;
        self.left -= row.count;
        Some(row)
    }
}
