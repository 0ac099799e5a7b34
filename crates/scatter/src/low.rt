// discs.rs, `pack_low_discrepancy_piece`: a Halton sequence filtered by clearance and spacing, for one piece.
ghost use Rattle.std.specs.Prelude.{◌≡◌, ◌*◌, ◌<◌, ◌≤◌, length, take};
ghost use Rattle.glyphs.specs.Spots.{spots_of};
ghost use Rattle.regions.specs.Pieces.{rings_of};
ghost use Rattle.lattice.specs.Flat.{Puts};
ghost use Rattle.scatter.specs.LowDiscrepancy.{budget, pack_scatter, lone_anchor};
ghost use Rattle.scatter.specs.Cells.{cells_of};
ghost use Rattle.scatter.specs.Passes.{tried, admits_at, pass_at, passes_at};

use crate::cells::Cells;
use crate::sequence::{Halton, budget};
use crate::site::Site;
use glyphs::rect::{Point, Rectangle};
use glyphs::spots::{put_spot, spots_before};
use lattice::context::PackCtx;
use lattice::escape::escape_obstacles;
use lattice::near::near_obstacles;
use lattice::uniform::piece_bounds;
use regions::piece::RegionPiece;

// What a pass tries, and tests against: the place that a lone mark tries first, the sequence, and the cells of spots.
#[derive(Clone, Copy)]
struct Filter<'a> {
    site: Site<'a>,
    anchor: Option<Point>,
    halton: Halton<'a>,
    cells: Cells,
    ghost own_cells: { cells ≡ cells_of site.ctx site.extents.min_x site.extents.min_y },
}

impl<'a> Filter<'a> {
    // What is tried at an index: the anchor first.
    #[tactic(auto, using(crate::specs::Passes::later, crate::specs::Passes::first))]
    fn candidate(&self, index: usize) -> Point
        requires { index < 1000000 }
        ensures { result ≡ tried self.now.site self.now.anchor index }
    {
        match self.anchor {
            Some(place) if index == 0 => place,
            _ => self.halton.point(self.site.extents, index),
        }
    }

    // Whether a candidate is placed: by the hints, the rings, all spots and, where `honor` says so, the obstacles.
    fn admits(&self, honor: bool, p: Point, hints: &[usize; 4096], placed: &[f64]) -> bool
        ensures { result ≡ admits_at self.now.site self.now.anchor honor (spots_of placed.now) p }
    {
        if self.cells.is_hinted(p, placed, hints) {
            return false;
        }
        self.site.clears(p)
            && self.cells.keeps_all(p, placed)
            && (!honor || self.site.clears_obstacles(p))
    }

    // One pass over the candidates, with `start` spots placed before. `honor` is the source's `honor_obstacles`: its two passes
    // differ in nothing else.
    fn pass(&self, honor: bool, start: usize, hints: &mut [usize; 4096], spots: &mut [f64]) -> usize
        requires { (start ≤ self.now.site.n) × (self.now.site.n * 2 ≤ length spots.old) }
        ensures { Puts (pass_at self.now.site self.now.anchor honor (budget self.now.site.n) 0 (take start (spots_of spots.old))) result spots.new spots.old }
    {
        let mut placed = start;
        for index in 0..budget(self.site.n) {
            if placed == self.site.n {
                return placed;
            }
            let p = self.candidate(index);
            if self.admits(honor, p, hints, spots_before(&spots[..], placed)) {
                put_spot(&mut spots[..], placed, p);
                hints[self.cells.home(p)] = placed;
                placed += 1;
            }
        }
        placed
    }

    // Both passes; the second does not honor the obstacles.
    fn passes(&self, spots: &mut [f64]) -> usize
        requires { self.now.site.n * 2 ≤ length spots.old }
        ensures { Puts (passes_at self.now.site self.now.anchor) result spots.new spots.old }
    {
        let mut hints = [0; 4096];
        let first = self.pass(true, 0, &mut hints, &mut spots[..]);
        if self.site.ends_first() {
            return first;
        }
        self.pass(false, first, &mut hints, &mut spots[..])
    }
}

// The deepest point of a piece, moved off its obstacles, for a lone mark.
pub fn lone_anchor(
    poi: Point,
    piece: RegionPiece,
    n: usize,
    ctx: PackCtx,
    obstacles: &[Rectangle],
    near: &mut [Rectangle],
) -> Option<Point>
    requires { length obstacles.now ≤ length near.old }
    ensures { result ≡ lone_anchor poi (rings_of piece.entry) n ctx obstacles.now }
{
    if n != 1 {
        return None;
    }
    let Some(extents) = piece_bounds(piece) else {
        return Some(poi);
    };
    let inset = ctx.inset();
    let m = near_obstacles(obstacles, inset, extents, &mut near[..]);
    Some(escape_obstacles(poi, piece, &near[..m], inset))
}

// Writes the spots of a piece to the front of `spots` and answers how many they are: the room is lent, two floats a spot.
pub fn pack_low_discrepancy_piece(
    anchor: Option<Point>,
    piece: RegionPiece,
    n: usize,
    ctx: PackCtx,
    obstacles: &[Rectangle],
    near: &mut [Rectangle],
    spots: &mut [f64],
) -> usize
    requires { (length obstacles.now ≤ length near.old) × (n * 2 ≤ length spots.old) }
    ensures { Puts (pack_scatter anchor (rings_of piece.entry) n ctx obstacles.now) result spots.new spots.old }
{
    if n == 0 {
        return 0;
    }
    let Some(extents) = piece_bounds(piece) else {
        return 0;
    };
    let mut halves = [0.0; 64];
    let mut thirds = [0.0; 64];
    let filter = Filter {
        site: Site::of(piece, extents, n, ctx, obstacles, near),
        anchor,
        halton: Halton::of_two_and_three(&mut halves, &mut thirds),
        cells: Cells::of(ctx, extents.min_x, extents.min_y),
    };
    filter.passes(&mut spots[..])
}
