// discs.rs, `pack_low_discrepancy_piece`: the cells that spots are kept in, and the spacing test within the nine
// cells around a candidate's. Distances come first, eight at a time: a spot that is far enough needs no cell.
ghost use Rattle.std.specs.Prelude.{◌≡◌, true, false, ◌<◌};
ghost use Rattle.laws.specs.Any.{all};
ghost use Rattle.glyphs.specs.Spots.{spots_of};
ghost use Rattle.lattice.specs.Span.{rank_of};
ghost use Rattle.scatter.specs.LowDiscrepancy.{cell_number, beside, neighbours};
ghost use Rattle.scatter.specs.Cells.{cells_of, keeps};

use glyphs::rect::{Point, squared_distance};
use glyphs::spots::{apart_from_eight, spot};
use lattice::context::PackCtx;
use lattice::span::floor_rank;

// Where the first cell begins, the cells' size, and the square of the spacing. The tests borrow it: passed by value it would
// be copied for each block of spots.
#[derive(Clone, Copy)]
pub struct Cells {
    pub min_x: f64,
    pub min_y: f64,
    pub size: f64,
    pub least: f64,
}

// The number of a cell, by its rank among the `i64`.
fn cell_rank(low: f64, size: f64, x: f64) -> u64
    ensures { result ≡ rank_of (cell_number low size x) }
{
    floor_rank((x - low) / size)
}

// Whether the cells of two coordinates are the same or beside each other.
fn beside(low: f64, size: f64, a: f64, b: f64) -> bool
    ensures { result ≡ beside (cell_number low size a) (cell_number low size b) }
{
    cell_rank(low, size, a).abs_diff(cell_rank(low, size, b)) <= 1
}

// Of the nine hints around that of a cell, the hint `k`.
fn around(h: usize, k: usize) -> usize
    requires { (h < 4096) × (k < 9) }
    ensures { result < 4096 }
{
    (h / 64 + 63 + k / 3) % 64 * 64 + (h + 63 + k % 3) % 64
}

impl Cells {
    pub fn of(ctx: PackCtx, min_x: f64, min_y: f64) -> Cells
        ensures { result ≡ cells_of ctx min_x min_y }
    {
        let spacing = ctx.spacing();
        let size = float::max(spacing, 0.0000000000000002220446049250313);
        Cells {
            min_x,
            min_y,
            size,
            least: spacing * spacing,
        }
    }

    // Whether the cell of `q` is one of the nine around that of `p`.
    fn neighbours(&self, p: Point, q: Point) -> bool
        ensures { result ≡ neighbours self.now.min_x self.now.min_y self.now.size p q }
    {
        beside(self.min_x, self.size, p.x, q.x) & beside(self.min_y, self.size, p.y, q.y)
    }

    // Whether `p` keeps the spacing from a spot, or the spot is in none of the nine cells around its own. Not inlined: so the
    // cell of `p` is worked out only for a spot that is too near.
    #[inline(never)]
    fn keeps(&self, p: Point, q: Point) -> bool
        ensures { result ≡ keeps self.now p q }
    {
        squared_distance(p, q) >= self.least || !self.neighbours(p, q)
    }

    // The same for all spots, one by one. Not inlined: the blocks of eight below mostly end without it.
    #[inline(never)]
    fn keeps_each(&self, p: Point, spots: &[f64]) -> bool
        ensures { result ≡ all (keeps self.now p) (spots_of spots.now) }
    {
        (0..spots.len() / 2).all(|k| self.keeps(p, spot(spots, k)))
    }

    // The same for the eight spots of a block.
    fn keeps_eight(&self, p: Point, block: &[f64; 16]) -> bool
        ensures { result ≡ all (keeps self.now p) (spots_of block.now) }
    {
        apart_from_eight(p, self.least, block) || self.keeps_each(p, &block[..])
    }

    // The same for all spots.
    pub fn keeps_all(&self, p: Point, spots: &[f64]) -> bool
        ensures { result ≡ all (keeps self.now p) (spots_of spots.now) }
    {
        let (blocks, rest) = spots.as_chunks::<16>();
        for block in blocks {
            if !self.keeps_eight(p, block) {
                return false;
            }
        }
        self.keeps_each(p, rest)
    }

    // Hints: for each cell the spot placed there last. This is where a place's cell has its hint; cells 64 apart share one.
    pub fn home(&self, p: Point) -> usize
        ensures { result < 4096 }
    {
        let i = float::as_usize((p.x - self.min_x) / self.size);
        let j = float::as_usize((p.y - self.min_y) / self.size);
        j % 64 * 64 + i % 64
    }

    // Whether spot `k` is there and too near.
    fn is_too_near(&self, p: Point, spots: &[f64], k: usize) -> bool
        ensures { result ≡ true → all (keeps self.now p) (spots_of spots.now) ≡ false }
    {
        k < spots.len() / 2 && !self.keeps(p, spot(spots, k))
    }

    // Whether a spot hinted at around `p` is too near. Most candidates end here, without a look at all spots; a hint may be
    // any number.
    pub fn is_hinted(&self, p: Point, spots: &[f64], hints: &[usize; 4096]) -> bool
        ensures { result ≡ true → all (keeps self.now p) (spots_of spots.now) ≡ false }
    {
        let h = self.home(p);
        (0..9).any(|k| self.is_too_near(p, spots, hints[around(h, k)]))
    }
}
