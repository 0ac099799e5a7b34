// discs.rs, `lattice_valid_cells` and `sort_by_anchor`: of the free cells and of the blocked ones those nearest to
// the anchor, in order. The walk is that of count.rt, which stops at a number of free cells, while this one puts a run
// of free cells among the others after each row: so each has a loop of its own over a row's cells.
ghost use Rattle.std.specs.Prelude.{◌≡◌, ◌*◌, ◌≤◌, length};
ghost use Rattle.lattice.specs.Found.{Found};
ghost use Rattle.lattice.specs.Gather.{kept, gather_cell, gather};
ghost use Rattle.lattice.specs.Gathered.{held_by, gathered_by, IsReady, IsWaiting, HoldsNow, GathersNow};
ghost use Rattle.lattice.specs.Held.{Holds};
ghost use Rattle.lattice.specs.Lattice.{never};
ghost use Rattle.lattice.specs.Site.{in_site};
ghost use Rattle.lattice.specs.Tally.{cells_of};
ghost use Rattle.lattice.specs.Walk.{cells_in};

use crate::count::Counts;
use crate::nearest::{keep, merge_run};
use crate::row::Row;
use crate::rows::Field;
use crate::site::Site;
use crate::tables::{Nearby, Tables};
use crate::waiting::{Free, wait};
use crate::walk::Rows;
use glyphs::rect::Point;

// How many free and how many blocked cells are wanted, those nearest to an anchor.
#[derive(Clone, Copy)]
pub struct Wanted {
    pub anchor: Point,
    pub free: usize,
    pub blocked: usize,
}

// The numbers of the cells that are gathered.
#[derive(Clone, Copy)]
pub struct Gathered {
    pub free: Free,
    pub blocked: usize,
}

// The cells that are gathered, in order at the front of two lent slices, and a run of free ones that wait.
#[derive(Drop)]
pub struct Gathering<'a> {
    pub free: &'a mut [f64],
    pub blocked: &'a mut [f64],
    pub run: [f64; 64],
    pub t: Gathered,
}

impl Gathering<'_> {
    // One more cell, with what was found for its row.
    fn gather_cell(&mut self, p: Point, wanted: Wanted, nearby: &Nearby)
        requires { Found p.y nearby.now × IsWaiting wanted self.old }
        ensures same_free { self.new.free.ghost_name ≡ self.old.free.ghost_name }
        ensures same_blocked { self.new.blocked.ghost_name ≡ self.old.blocked.ghost_name }
        ensures cells { GathersNow wanted
            (in_site gather_cell nearby.now.site wanted.anchor wanted.free wanted.blocked (gathered_by wanted self.old) p)
            self.old self.new }
    {
        if !nearby.clears_rings(p) {
            return;
        }
        if nearby.clears_pillars(p) {
            self.t.free = wait(
                p,
                wanted.anchor,
                wanted.free,
                &mut self.free[..],
                &mut self.run,
                self.t.free,
            );
            return;
        }
        self.t.blocked = keep(
            &mut self.blocked[..],
            self.t.blocked,
            wanted.blocked,
            wanted.anchor,
            p,
        );
    }

    // The cells of a row; of the free ones some wait until they are put among the others.
    fn gather_row(&mut self, row: Row, wanted: Wanted, site: Site, tables: &mut Tables)
        requires { IsReady wanted self.old }
        ensures same_free { self.new.free.ghost_name ≡ self.old.free.ghost_name }
        ensures same_blocked { self.new.blocked.ghost_name ≡ self.old.blocked.ghost_name }
        ensures cells { HoldsNow (in_site gather site.entry wanted.anchor wanted.free wanted.blocked (held_by self.old) (cells_in row)) self.old self.new }
    {
        if row.count == 0 {
            return;
        }
        let nearby = tables.find(row.y, site);
        self.t.free.waiting = 0;
        for k in 0..row.count {
            self.gather_cell(row.cell(k), wanted, &nearby);
        }
        let free = self.t.free;
        let run = &self.run[..];
        self.t.free.kept = merge_run(
            &mut self.free[..],
            free.kept,
            wanted.free,
            wanted.anchor,
            &run[..free.waiting * 2],
        );
    }
}

// The nearest of the free cells and of the blocked ones.
pub fn gather_cells(
    field: Field,
    site: Site,
    nf: usize,
    nb: usize,
    free: &mut [f64],
    blocked: &mut [f64],
) -> Counts
    requires { (nf * 2 ≤ length free.old) × (nb * 2 ≤ length blocked.old) }
    ensures { Holds (kept field.anchor nf nb (in_site (cells_of field) site.entry never)) result free.new blocked.new free.old blocked.old }
{
    let wanted = Wanted {
        anchor: field.anchor,
        free: nf,
        blocked: nb,
    };
    let none = Free {
        kept: 0,
        waiting: 0,
    };
    let mut gathering = Gathering {
        free: &mut free[..],
        blocked: &mut blocked[..],
        run: [0.0; 64],
        t: Gathered {
            free: none,
            blocked: 0,
        },
    };
    let mut tables = Tables::default();
    for row in Rows::of(field) {
        gathering.gather_row(row, wanted, site, &mut tables);
    }
    Counts {
        free: gathering.t.free.kept,
        blocked: gathering.t.blocked,
    }
}
