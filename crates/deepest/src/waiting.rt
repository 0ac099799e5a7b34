// The cells that wait: a heap in the first `len` places of a lent slice, with how many have entered so far. The library's
// `BinaryHeap` allocates, which nothing here may.
ghost use Rattle.deepest.specs.Queue.{Queue};

use crate::queue::{Cell, before, first_child, get, put};
use glyphs::rect::Point;

#[derive(Drop)]
pub struct Waiting<'a> {
    pub cells: &'a mut [[f64; 5]],
    pub halves: &'a [f64],
    pub len: usize,
    pub entered: u64,
    pub ghost heap: { Queue halves.now cells.now len },
}

// More cells would wait than there is room for.
#[derive(Clone, Copy)]
pub struct NoRoom;

impl<'a> Waiting<'a> {
    ghost use Rattle.std.specs.Prelude.{◌≡◌, ◌+◌, ◌-◌, ◌*◌, ◌/◌, ◌<◌, ◌≤◌, length};
    ghost use Rattle.deepest.specs.Waiting.{Starts, Enters, Leaves};

    pub fn new(cells: &'a mut [[f64; 5]], halves: &'a [f64]) -> Waiting<'a>
        ensures { Starts cells.old halves.now result }
    {
        Waiting {
            cells,
            halves,
            len: 0,
            entered: 0,
        }
    }

    // How many cells more there is room for.
    pub fn room(&self) -> usize
        ensures places { result ≡ length self.now.cells.now - self.now.len }
        ensures few { self.now.len + result < 4611686018427387904 }
    {
        self.cells.len() - self.len
    }

    // Makes a cell and puts it among those that wait. Its place is halved on the way up, so no `for` counts it. Meanwhile
    // the heap does not hold, so the loop has the slice alone.
    pub fn push(&mut self, place: Point, d: f64, halvings: u64)
        requires room { self.old.len < length self.old.cells.now }
        requires few { halvings < 22 }
        requires early { self.old.entered < 4611686018427387904 }
        ensures { Enters self.old place.x place.y d halvings self.new }
    {
        let cell = Cell {
            x: place.x,
            y: place.y,
            d,
            halvings,
            entry: self.entered,
        };
        let cells = &mut self.cells[..];
        let mut i = self.len;
        while 0 < i {
            let p = (i - 1) / 2;
            let e = get(&cells[..], p);
            if !before(self.halves, cell, e) {
                break;
            }
            put(&mut cells[..], i, e);
            i = p;
        }
        put(&mut cells[..], i, cell);
        self.len += 1;
        self.entered += 1;
    }

    // Takes out the cell that leaves first. The last one takes its place: doubled on the way down, so no `for` counts it, and
    // in the slice alone.
    pub fn pop(&mut self) -> Option<Cell>
        ensures { Leaves self.old result self.new }
    {
        if self.len == 0 {
            return None;
        }
        self.len -= 1;
        let n = self.len;
        let cells = &mut self.cells[..];
        let first = get(&cells[..], 0);
        if n < 1 {
            return Some(first);
        }
        let c = get(&cells[..], n);
        let mut i = 0;
        while i * 2 + 1 < n {
            let k = first_child(&cells[..], n, self.halves, i);
            let e = get(&cells[..], k);
            if !before(self.halves, e, c) {
                break;
            }
            put(&mut cells[..], i, e);
            i = k;
        }
        put(&mut cells[..], i, c);
        Some(first)
    }
}
