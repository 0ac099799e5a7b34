// regions.rs, `poi_with_holes`.
ghost use Rattle.std.specs.Prelude.{◌≡◌, ◌+◌, ◌*◌, ◌/◌, ◌<◌, ◌≤◌, true, length};
ghost use Rattle.regions.specs.Pieces.{rings_of};
ghost use Rattle.deepest.specs.Order.{halves_from};
ghost use Rattle.deepest.specs.Cells.{cell_at};
ghost use Rattle.deepest.specs.Queue.{total};
ghost use Rattle.deepest.specs.Turns.{Explored};
ghost use Rattle.deepest.specs.Waiting.{Quarters};
ghost use Rattle.deepest.specs.Deepest.{heft, better_of, splits_at, answer_of, search_in, deepest_point, deeper_of};

use crate::queue::{Cell, bound, half};
use crate::seeds::{Tiling, seed};
use crate::waiting::Waiting;
use glyphs::bounds::ring_extents;
use glyphs::rect::Point;
use regions::clearance::signed_clearance;
use regions::four::{Four, four_clearances};
use regions::piece::RegionPiece;

// A deepest point with its clearance, or none; or more cells waited than there is room for. The project names this
// form.
#[derive(Clone, Copy)]
pub enum Deepest {
    Found(f64, f64, f64),
    Nothing,
    Full,
}

// The deepest place so far.
#[derive(Clone, Copy)]
pub struct Best {
    pub x: f64,
    pub y: f64,
    pub d: f64,
}

// The half widths after 0 to 21 halvings.
fn halves_of(h0: f64) -> [f64; 22]
    ensures { result ≡ halves_from h0 22 }
{
    let mut halves = [0.0; 22];
    let mut h = h0;
    for half in &mut halves {
        *half = h;
        h = h / 2.0;
    }
    halves
}

#[tactic(auto, unfolding(crate::specs::Deepest::better_of))]
fn better(best: Best, cell: Cell) -> Best
    ensures { result ≡ better_of best cell }
{
    if cell.d > best.d {
        return Best {
            x: cell.x,
            y: cell.y,
            d: cell.d,
        };
    }
    best
}

// Whether a cell is split: not after 21 halvings.
#[tactic(auto, unfolding(crate::specs::Deepest::splits_at))]
fn splits(halves: &[f64], cell: Cell, best: Best, precision: f64) -> bool
    ensures { (result ≡ splits_at halves.now precision cell best) × (result ≡ true → cell.halvings < 21) }
{
    if cell.halvings < 21 {
        return !(bound(halves, cell) - best.d <= precision);
    }
    false
}

#[tactic(auto, unfolding(crate::specs::Deepest::answer_of))]
fn answer(best: Best) -> Deepest
    ensures { result ≡ answer_of best }
{
    if best.d > 0.0 {
        return Deepest::Found(best.x, best.y, best.d);
    }
    Deepest::Nothing
}

// Puts the four quarters of a cell among those that wait.
fn push_four(waiting: &mut Waiting, cell: Cell, piece: RegionPiece)
    requires { (waiting.old.len + 4 ≤ length waiting.old.cells.now) × (cell.halvings < 21) × (waiting.old.entered + 4 ≤ 4611686018427387904) }
    ensures { Quarters (rings_of piece.entry) waiting.old cell waiting.new }
{
    let k = cell.halvings + 1;
    let nh = half(waiting.halves, k);
    let left = cell.x - nh;
    let right = cell.x + nh;
    let low = cell.y - nh;
    let high = cell.y + nh;
    let places = Four {
        a: Point { x: left, y: low },
        b: Point { x: right, y: low },
        c: Point { x: left, y: high },
        d: Point { x: right, y: high },
    };
    let ds = four_clearances(places, piece);
    waiting.push(places.a, ds.a, k);
    waiting.push(places.b, ds.b, k);
    waiting.push(places.c, ds.c, k);
    waiting.push(places.d, ds.d, k);
}

// The search among the cells that wait.
fn explore(waiting: &mut Waiting, first: Best, precision: f64, piece: RegionPiece) -> Deepest
    requires entered { waiting.old.entered ≡ waiting.old.len }
    requires few { waiting.old.len + 4 * total heft (cell_at waiting.old.cells.now) waiting.old.len ≤ 4611686018427387904 }
    ensures { Explored (rings_of piece.entry) waiting.old.halves.now precision waiting.old.cells.now waiting.old.len first result }
{
    let mut best = first;
    // The body puts cells among those that wait, so these cannot be lent to a `for`.
    while let Some(cell) = waiting.pop() {
        best = better(best, cell);
        if splits(waiting.halves, cell, best, precision) {
            if waiting.room() < 4 {
                return Deepest::Full;
            }
            push_four(waiting, cell, piece);
        }
    }
    answer(best)
}

// The deepest point within the bounds of the outer ring, with first cells of the given side.
fn search(cells: &mut [[f64; 5]], tiling: Tiling, precision: f64, piece: RegionPiece) -> Deepest
    requires { length cells.old ≤ 100000 }
    ensures { result ≡ search_in (rings_of piece.entry) precision (length cells.old) tiling.bounds tiling.side }
{
    let halves = halves_of(tiling.side / 2.0);
    let e = tiling.bounds;
    let x = (e.min_x + e.max_x) / 2.0;
    let y = (e.min_y + e.max_y) / 2.0;
    let d = signed_clearance(x, y, piece);
    let mut waiting = Waiting::new(&mut cells[..], &halves[..]);
    let Ok(()) = seed(&mut waiting, tiling, piece) else {
        return Deepest::Full;
    };
    explore(&mut waiting, Best { x, y, d }, precision, piece)
}

// The deepest point of a piece. As many cells may wait as `cells` has room for, at five floats each.
pub fn deepest_point(piece: RegionPiece, precision: f64, cells: &mut [f64]) -> Deepest
    requires { length cells.old ≤ 500000 }
    ensures { result ≡ deepest_point (length cells.old / 5) precision (rings_of piece.entry) }
{
    let outer = piece.outer();
    if outer.len() < 3 {
        return Deepest::Nothing;
    }
    let bounds = ring_extents(outer);
    let width = bounds.max_x - bounds.min_x;
    let height = bounds.max_y - bounds.min_y;
    if (width <= 0.0) | (height <= 0.0) {
        return Deepest::Nothing;
    }
    let side = float::min(width, height);
    let (rows, _) = cells.as_chunks_mut::<5>();
    search(rows, Tiling { bounds, side }, precision, piece)
}

// The deeper of two: the first unless the second is strictly deeper. Where one search found no room, there is none.
#[tactic(auto, unfolding(crate::specs::Deepest::deeper_of))]
pub fn deeper(a: Deepest, b: Deepest) -> Deepest
    ensures { result ≡ deeper_of a b }
{
    match a {
        Deepest::Full => Deepest::Full,
        Deepest::Nothing => b,
        Deepest::Found(_, _, best) => match b {
            Deepest::Full => Deepest::Full,
            Deepest::Nothing => a,
            Deepest::Found(_, _, d) => { if d > best { b } else { a } }
        },
    }
}
