// Free cells on their way to those that are kept in order: a few wait in a run of their own, in order too, and are
// put among the others together.
ghost use Rattle.std.specs.Prelude.{◌≡◌, ◌<◌, take};
ghost use Rattle.laws.specs.Bounded.{insert_behind};
ghost use Rattle.lattice.specs.Lattice.{by_anchor};
ghost use Rattle.lattice.specs.Waiting.{Line, Onward, lined};

use crate::nearest::{keep, merge_run};
use glyphs::rect::Point;

// How many free cells are kept, and how many more wait. Both lie as floats, as C lends the ones and a run is put among them,
// so their numbers stand here.
#[derive(Clone, Copy)]
pub struct Free {
    pub kept: usize,
    pub waiting: usize,
}

// Puts the cells that wait among the others, where no more can wait.
fn flush_full(free: &mut [f64], nf: usize, anchor: Point, run: &[f64; 64], t: Free) -> Free
    requires { Line anchor nf t free.old run.now }
    ensures { (result.waiting < 32)
        × Line anchor nf result free.new run.now
        × (lined anchor nf result free.new run.now ≡ lined anchor nf t free.old run.now)
        × Onward t result free.old free.new }
{
    if t.waiting < 32 {
        return t;
    }
    let m = merge_run(&mut free[..], t.kept, nf, anchor, &run[..t.waiting * 2]);
    Free {
        kept: m,
        waiting: 0,
    }
}

// One more free cell, which waits.
pub fn wait(
    p: Point,
    anchor: Point,
    nf: usize,
    free: &mut [f64],
    run: &mut [f64; 64],
    t: Free,
) -> Free
    requires { Line anchor nf t free.old run.old }
    ensures { Line anchor nf result free.new run.new
        × (lined anchor nf result free.new run.new ≡ take nf (insert_behind (by_anchor anchor) p (lined anchor nf t free.old run.old)))
        × Onward t result free.old free.new }
{
    let u = flush_full(&mut free[..], nf, anchor, run, t);
    let n = keep(&mut run[..], u.waiting, 32, anchor, p);
    Free {
        kept: u.kept,
        waiting: n,
    }
}
