// discs.rs, `lattice_valid_cells`: the rows of a lattice.
ghost use Rattle.std.specs.Prelude.{◌≡◌, ◌≤◌, min, Float};
ghost use Rattle.lattice.specs.Lattice.{row_height, row_offset};
ghost use Rattle.lattice.specs.Span.{of_rank};
ghost use Rattle.lattice.specs.Rows.{row_x, row_y, first_cell, last_cell, width, row_of};
ghost use Rattle.lattice.specs.Walk.{cells_in};

use crate::context::Lattice;
use crate::row::Row;
use crate::span::{ceil_rank, floor_rank, many, number};
use glyphs::bounds::Extents;
use glyphs::rect::Point;

// A lattice anchored at a point, and the box that its cells are to reach over.
#[derive(Clone, Copy)]
pub struct Field {
    pub anchor: Point,
    pub lattice: Lattice,
    pub extents: Extents,
}

// A row: the place of its cell 0, and the ranks of its first and last cell.
#[derive(Clone, Copy)]
pub struct Line {
    pub x: f64,
    pub y: f64,
    pub first: u64,
    pub last: u64,
}

pub fn row_height(lattice: Lattice) -> f64
    ensures { result ≡ row_height lattice }
{
    if lattice.rectangular {
        return lattice.spacing;
    }
    lattice.spacing * float::root(3.0) / 2.0
}

// How far the row of a rank is shifted. A number is odd where its rank is.
fn row_offset(lattice: Lattice, u: u64) -> f64
    ensures { result ≡ row_offset lattice (of_rank u) }
{
    if lattice.rectangular {
        return 0.0;
    }
    if u % 2 == 1 {
        return lattice.spacing / 2.0;
    }
    0.0
}

// The ranks of the first and of the last cell of a row: there is none where the last is below the first.
pub fn row_ends(field: Field, u: u64) -> (u64, u64)
    ensures { (row_h : Float) → result ≡ (first_cell field row_h u, last_cell field row_h u) }
{
    let spacing = field.lattice.spacing;
    let offset = row_offset(field.lattice, u);
    let first = floor_rank((field.extents.min_x - offset - field.anchor.x) / spacing);
    let last = ceil_rank((field.extents.max_x - offset - field.anchor.x) / spacing);
    (first, last)
}

// The row of a rank, where rows are `row_h` apart.
pub fn row_at(field: Field, row_h: f64, u: u64) -> Line
    ensures x { result.x ≡ row_x field row_h u }
    ensures y { result.y ≡ row_y field row_h u }
    ensures first { result.first ≡ first_cell field row_h u }
    ensures last { result.last ≡ last_cell field row_h u }
{
    let (first, last) = row_ends(field, u);
    Line {
        x: field.anchor.x + row_offset(field.lattice, u),
        y: field.anchor.y + number(u) * row_h,
        first,
        last,
    }
}

// At most `left` cells of the row of a rank.
pub fn row_within(field: Field, row_h: f64, u: u64, left: usize) -> Row
    ensures x { result.x ≡ row_x field row_h u }
    ensures y { result.y ≡ row_y field row_h u }
    ensures spacing { result.spacing ≡ field.lattice.spacing }
    ensures first { result.first ≡ first_cell field row_h u }
    ensures count { result.count ≡ min (width field row_h u) left }
    ensures cells { cells_in result ≡ row_of field row_h u left }
    ensures few { result.count ≤ left }
{
    let line = row_at(field, row_h, u);
    Row {
        x: line.x,
        y: line.y,
        spacing: field.lattice.spacing,
        first: line.first,
        count: many(line.first, line.last, left),
    }
}
