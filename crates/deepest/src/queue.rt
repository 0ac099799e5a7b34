// The cells of the search for a deepest point that wait: a binary heap in a slice of rows of five floats, x, y, clearance,
// halvings and entry. The floats are lent by C, so the last two stand there as the bit patterns of floats. The greatest bound
// leaves first, of equal bounds the first to enter.
ghost use Rattle.std.specs.Prelude.{◌≡◌, ℕ, ◌+◌, ◌*◌, ◌<◌, ◌≤◌, length, ◌≢◌};
ghost use Rattle.deepest.specs.Order.{half_at, bound_of, leaves};
ghost use Rattle.deepest.specs.Cells.{cell_at, put_cell, Tagged, Sound};
ghost use Rattle.deepest.specs.Heap.{First};

use std::cmp::OrderedFloat;

#[derive(Clone, Copy)]
pub struct Cell {
    pub x: f64,
    pub y: f64,
    pub d: f64,
    pub halvings: u64,
    pub entry: u64,
}

// The half width of a cell after `k` halvings.
pub fn half(halves: &[f64], k: u64) -> f64
    ensures { result ≡ half_at halves.now k }
{
    halves.get(k as usize).copied().unwrap_or(f64::NAN)
}

// An upper bound of the clearance within a cell.
#[tactic(auto, unfolding(crate::specs::Order::bound_of))]
pub fn bound(halves: &[f64], c: Cell) -> f64
    ensures { result ≡ bound_of halves.now c }
{
    c.d + half(halves, c.halvings) * 1.4142135623730951
}

// Whether cell `a` leaves before cell `b`. Turned over, the greatest bound is the least, and a NaN is last.
#[tactic(auto, unfolding(crate::specs::Order::leaves))]
pub(crate) fn before(halves: &[f64], a: Cell, b: Cell) -> bool
    ensures { result ≡ leaves halves.now a b }
{
    let u = OrderedFloat(-bound(halves, a));
    let v = OrderedFloat(-bound(halves, b));
    (u, a.entry) < (v, b.entry)
}

#[tactic(auto, unfolding(crate::specs::Cells::cell_at))]
pub(crate) fn get(cells: &[[f64; 5]], k: usize) -> Cell
    requires { (k < length cells.now) × Sound cells.now k }
    ensures { result ≡ cell_at cells.now k }
{
    let [x, y, d, halvings, entry] = cells[k];
    Cell {
        x,
        y,
        d,
        halvings: f64::to_bits(halvings),
        entry: f64::to_bits(entry),
    }
}

pub(crate) fn put(cells: &mut [[f64; 5]], k: usize, c: Cell)
    requires { (k < length cells.old) × Tagged c }
    ensures { cells.new ≡ put_cell cells.old k c }
{
    let halvings = f64::from_bits(c.halvings);
    let entry = f64::from_bits(c.entry);
    cells[k] = [c.x, c.y, c.d, halvings, entry];
}

// The child of place `i` that leaves first, of the `n` places, among which it has a child. It takes slice, count and table
// apart from `Waiting`, whose heap does not hold while a cell is on its way down.
pub(crate) fn first_child(cells: &[[f64; 5]], n: usize, halves: &[f64], i: usize) -> usize
    requires { (i * 2 + 1 < n) × (n ≤ length cells.now) × ((k : ℕ) → k < n → (k ≢ i) → Sound cells.now k) }
    ensures { First halves.now (cell_at cells.now) n i result }
{
    let k = i * 2 + 1;
    let s = k + 1;
    if s < n {
        let a = get(cells, s);
        let b = get(cells, k);
        if before(halves, a, b) {
            return s;
        }
    }
    k
}
