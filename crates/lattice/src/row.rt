// discs.rs, `lattice_valid_cells`: the cells of a row.
ghost use Rattle.std.specs.Prelude.{◌≡◌, ◌+◌, ◌<◌, ◌≤◌};
ghost use Rattle.lattice.specs.Escape.{point};
ghost use Rattle.lattice.specs.Rows.{cell_x};

use crate::span::number;
use glyphs::rect::Point;

// Cells of a row side by side: where the row's cell 0 is, how far apart they are, and the rank of the first.
#[derive(Clone, Copy)]
pub struct Row {
    pub x: f64,
    pub y: f64,
    pub spacing: f64,
    pub first: u64,
    pub count: usize,
    pub ghost ranked: { first + count ≤ 0x1_0000_0000_0000_0000 },
}

impl Row {
    // The place of the `k`-th of the cells.
    pub fn cell(self, k: usize) -> Point
        requires { k < self.count }
        ensures { result ≡ point (cell_x self.x self.spacing (self.first + k)) self.y }
    {
        let x = self.x + number(self.first + k as u64) * self.spacing;
        Point { x, y: self.y }
    }
}
