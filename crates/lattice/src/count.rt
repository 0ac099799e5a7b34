// discs.rs, `lattice_valid_cells`, where only the numbers of cells are asked for.
ghost use Rattle.std.specs.Prelude.{◌≡◌, ◌+◌, ◌<◌, ◌≤◌};
ghost use Rattle.lattice.specs.Found.{Found};
ghost use Rattle.lattice.specs.Lattice.{at};
ghost use Rattle.lattice.specs.Site.{in_site};
ghost use Rattle.lattice.specs.Tally.{counts_of, cells_of, count_cell, tally};
ghost use Rattle.lattice.specs.Walk.{cells_in};

use crate::row::Row;
use crate::rows::Field;
use crate::site::Site;
use crate::tables::{Nearby, Tables};
use crate::walk::Rows;
use glyphs::rect::Point;

// How many cells are free and how many blocked. It is of the shape of `Free`, and has nothing else in common with it.
#[derive(Clone, Copy)]
pub struct Counts {
    pub free: usize,
    pub blocked: usize,
}

// One more cell, with what was found for its row.
fn count_cell(p: Point, nearby: &Nearby, t: Counts) -> Counts
    requires { Found p.y nearby.now × (t.free < 1000000) × (t.blocked < 1000000) }
    ensures { result ≡ in_site count_cell nearby.now.site t p }
{
    if nearby.clears_rings(p) {
        if nearby.clears_pillars(p) {
            return Counts {
                free: t.free + 1,
                blocked: t.blocked,
            };
        }
        return Counts {
            free: t.free,
            blocked: t.blocked + 1,
        };
    }
    t
}

// The cells of a row, or up to the one that makes `cap` free ones.
fn count_row(row: Row, site: Site, cap: usize, start: Counts, tables: &mut Tables) -> Counts
    requires { (start.free + row.count ≤ 1000000) × (start.blocked + row.count ≤ 1000000) }
    ensures { result ≡ in_site tally site.entry cap start (cells_in row) }
{
    if row.count == 0 {
        return start;
    }
    let nearby = tables.find(row.y, site);
    let mut t = start;
    for k in 0..row.count {
        t = count_cell(row.cell(k), &nearby, t);
        if t.free >= cap {
            return t;
        }
    }
    t
}

// The numbers of free and of blocked cells, or up to the cell that makes `cap` free ones.
pub fn count_cells(field: Field, site: Site, cap: usize) -> Counts
    requires { 0 < cap }
    ensures { result ≡ counts_of (in_site (cells_of field) site.entry (at cap)) }
{
    let mut tables = Tables::default();
    count_with(field, site, cap, &mut tables)
}

// The same with room for what is found for a row, which serves one count after another.
pub fn count_with(field: Field, site: Site, cap: usize, tables: &mut Tables) -> Counts
    requires { 0 < cap }
    ensures { result ≡ counts_of (in_site (cells_of field) site.entry (at cap)) }
{
    let mut t = Counts {
        free: 0,
        blocked: 0,
    };
    for row in Rows::of(field) {
        t = count_row(row, site, cap, t, tables);
        if t.free >= cap {
            return t;
        }
    }
    t
}
