// discs.rs, `sort_by_anchor`: the cells nearest to an anchor, kept in order in a slice of their x and y in turn, as C lends it.
ghost use Rattle.std.specs.Prelude.{◌≡◌, suc, ◌+◌, ◌*◌, ◌/◌, ◌<◌, ◌≤◌, min, length, take};
ghost use Rattle.laws.specs.Bounded.{insert_behind, lead};
ghost use Rattle.laws.specs.Lists.{written};
ghost use Rattle.laws.specs.Orders.{is_lt};
ghost use Rattle.laws.specs.Sorted.{Ascending};
ghost use Rattle.glyphs.specs.Spots.{flat, spots_of};
ghost use Rattle.lattice.specs.Flat.{points, moved};
ghost use Rattle.lattice.specs.Lattice.{by_anchor};
ghost use Rattle.lattice.specs.Merge.{inserted};
ghost use Rattle.lattice.specs.Run.{before_last, put_below};

use glyphs::rect::{Point, squared_distance};
use glyphs::spots::{put_spot, spot};

// Whether `a` comes before `b`: by squared distance, then y, then x. By hand, for speed: with `then_with`, which proves, a
// lattice takes some hundredths longer to pack, as each comparison makes an `Ordering` that is taken apart again.
fn precedes(anchor: Point, a: Point, b: Point) -> bool
    ensures { result ≡ is_lt (by_anchor anchor a b) }
{
    let da = float::total_key(squared_distance(a, anchor));
    let db = float::total_key(squared_distance(b, anchor));
    if da != db {
        return da < db;
    }
    let ya = float::total_key(a.y);
    let yb = float::total_key(b.y);
    if ya != yb {
        return ya < yb;
    }
    float::total_less(a.x, b.x)
}

// How many of some cells, which are in order, `p` is not before. By hand, for speed: with `partition_point` on the cells as
// pairs, which proves, a lattice takes some hundredths longer to pack.
fn place(cells: &[f64], anchor: Point, p: Point) -> usize
    requires { Ascending (by_anchor anchor) (spots_of cells.now) }
    ensures { result ≡ lead (by_anchor anchor) p (spots_of cells.now) }
{
    let mut low = 0;
    let mut high = cells.len() / 2;
    while low < high {
        let mid = low + (high - low) / 2;
        if precedes(anchor, p, spot(cells, mid)) {
            high = mid;
        } else {
            low = mid + 1;
        }
    }
    low
}

// Moves the cells from `k` up to `e` one place on.
fn make_room(cells: &mut [f64], k: usize, e: usize)
    requires { (k ≤ e) × (e * 2 + 2 ≤ length cells.old) }
    ensures { cells.new ≡ moved cells.old (k * 2) (e * 2) }
{
    let a = k * 2;
    cells.copy_within(a..e * 2, a + 2);
}

// Puts `p` among the `m` cells; of `cap` and one more the last is dropped. Answers how many there are then: the slice is
// lent, and has no count of its own.
pub fn keep(cells: &mut [f64], m: usize, cap: usize, anchor: Point, p: Point) -> usize
    requires { (m ≤ cap) × (cap * 2 ≤ length cells.old) × Ascending (by_anchor anchor) (points m cells.old) }
    ensures { (result ≡ min (suc m) cap) × (cells.new ≡ written (flat (take cap (insert_behind (by_anchor anchor) p (points m cells.old)))) cells.old) }
{
    let k = place(&cells[..m * 2], anchor, p);
    if k < cap {
        let e = m.min(cap - 1);
        make_room(&mut cells[..], k, e);
        put_spot(&mut cells[..], k, p);
        return e + 1;
    }
    m
}

// Whether `p` is before the last of the first `i` cells.
fn is_before_last(cells: &[f64], i: usize, anchor: Point, p: Point) -> bool
    requires { i * 2 ≤ length cells.now }
    ensures { result ≡ before_last anchor p cells.now i }
{
    if i == 0 {
        return false;
    }
    precedes(anchor, p, spot(cells, i - 1))
}

// Puts `p` at the place `e`, where that is below `cap`.
fn put_below(cells: &mut [f64], cap: usize, e: usize, p: Point)
    requires { cap * 2 ≤ length cells.old }
    ensures { cells.new ≡ put_below cap cells.old e p }
{
    if e < cap {
        put_spot(&mut cells[..], e, p);
    }
}

// Puts a run of cells in order among the `m` cells, from the last: so only those behind the run's first move.
// What is past `cap` is dropped. Answers how many there are then, as `keep` does.
pub fn merge_run(cells: &mut [f64], m: usize, cap: usize, anchor: Point, run: &[f64]) -> usize
    requires { (m ≤ cap) × (cap * 2 ≤ length cells.old)
        × Ascending (by_anchor anchor) (points m cells.old)
        × Ascending (by_anchor anchor) (spots_of run.now) }
    ensures { (result ≡ min (m + length run.now / 2) cap)
        × (cells.new ≡ written (flat (take cap (inserted (by_anchor anchor) (points m cells.old) (spots_of run.now)))) cells.old) }
{
    let k = run.len() / 2;
    let mut i = m;
    for j in (0..k).rev() {
        let p = spot(run, j);
        // How many cells move for this one is known only when its place is found, from the back.
        while is_before_last(&cells[..], i, anchor, p) {
            i -= 1;
            let q = spot(&cells[..], i);
            put_below(&mut cells[..], cap, i + j + 1, q);
        }
        put_below(&mut cells[..], cap, i + j, p);
    }
    (m + k).min(cap)
}
