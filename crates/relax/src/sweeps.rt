// relax.rs, `relax_scatter`.
ghost use Rattle.std.specs.Prelude.{◌≡◌, map, ◌*◌, length};
ghost use Rattle.glyphs.specs.Spots.{spots_of, flat};
ghost use Rattle.regions.specs.Pieces.{rings_of};
ghost use Rattle.regions.specs.Unrooted.{rooted};
ghost use Rattle.relax.specs.Scatter.{max_step_of, relax_sweep, relax_sweeps, relax_scatter, clearances_of, honoring_of, idle};
ghost use Rattle.relax.specs.Moves.{scatter_of, surroundings, Keeps};
ghost use Rattle.relax.specs.Notes.{unrooted_of};

use crate::Spreading;
use crate::distances::Distances;
use crate::field::Field;
use crate::marks::Marks;
use crate::moves::relax_point;
use glyphs::rect::{Rectangle, is_finite};
use glyphs::spots::spot;
use regions::margin::Margin;
use regions::piece::RegionPiece;
use regions::pillars::clears_obstacles;
use regions::unrooted::unrooted_clearance;

// The greatest step of sweep `k`.
#[tactic(auto, unfolding(crate::specs::Scatter::max_step_of))]
fn longest_step(numbers: Spreading, spacing: f64, k: u32) -> f64
    ensures { result ≡ max_step_of numbers spacing k }
{
    let cooling = 1.0 - (k as f64) / (numbers.sweeps as f64);
    numbers.max_step * spacing * cooling
}

fn relax_sweep(numbers: Spreading, field: &Field, k: u32, marks: &mut Marks)
    ensures keeps { Keeps marks.old marks.new }
    ensures moved { scatter_of marks.new ≡ relax_sweep numbers (surroundings field.now marks.old.honoring.now) (scatter_of marks.old) k }
{
    let max_step = longest_step(numbers, field.distances.spacing, k);
    // The body reads and moves the marks, so these cannot be lent to the `for`.
    for i in 0..marks.honoring.len() {
        relax_point(numbers, field, max_step, marks, i);
    }
}

fn relax_sweeps(numbers: Spreading, field: &Field, marks: &mut Marks)
    ensures keeps { Keeps marks.old marks.new }
    ensures moved { scatter_of marks.new ≡ relax_sweeps numbers (surroundings field.now marks.old.honoring.now) (scatter_of marks.old) }
{
    for k in 0..numbers.sweeps {
        relax_sweep(numbers, field, k, marks);
    }
}

fn note_unrooted(spots: &[f64], unrooted: &mut [f64], piece: RegionPiece)
    requires { length spots.now ≡ length unrooted.old * 2 }
    ensures { unrooted.new ≡ unrooted_of (rings_of piece.entry) (spots_of spots.now) }
{
    for (i, note) in unrooted.iter_mut().enumerate() {
        let p = spot(spots, i);
        *note = unrooted_clearance(p.x, p.y, piece);
    }
}

fn note_honoring(spots: &[f64], honoring: &mut [bool], obstacles: &[Rectangle], inset: f64)
    requires { length spots.now ≡ length honoring.old * 2 }
    ensures { honoring.new ≡ honoring_of obstacles.now inset (spots_of spots.now) }
{
    let margin = Margin::of(inset);
    for (i, note) in honoring.iter_mut().enumerate() {
        let p = spot(spots, i);
        *note = clears_obstacles(p.x, p.y, obstacles, margin);
    }
}

#[tactic(auto, unfolding(crate::specs::Scatter::idle))]
fn idle(count: usize, spacing: f64) -> bool
    ensures { result ≡ idle count spacing }
{
    if count == 0 {
        return true;
    }
    !is_finite(spacing) | (spacing <= 0.0)
}

// Evens the marks out. At exit `unrooted` has the clearance of each, its root not taken, and `honoring` whether it was clear of
// the obstacles at entry. The parameters are the source's, and what is lent.
pub fn relax_scatter(
    numbers: Spreading,
    spots: &mut [f64],
    unrooted: &mut [f64],
    honoring: &mut [bool],
    piece: RegionPiece,
    obstacles: &[Rectangle],
    spacing: f64,
    inset: f64,
)
    requires { (length spots.old ≡ length unrooted.old * 2) × (length honoring.old ≡ length unrooted.old) }
    ensures spots { spots.new ≡ flat (relax_scatter numbers (spots_of spots.old) (rings_of piece.entry) obstacles.now spacing inset) }
    ensures unrooted { map rooted unrooted.new
        ≡ clearances_of (rings_of piece.entry)
        (relax_scatter numbers (spots_of spots.old) (rings_of piece.entry) obstacles.now spacing inset) }
    ensures honoring { honoring.new ≡ honoring_of obstacles.now inset (spots_of spots.old) }
{
    note_honoring(&spots[..], &mut honoring[..], obstacles, inset);
    note_unrooted(&spots[..], &mut unrooted[..], piece);
    if idle(honoring.len(), spacing) {
        return;
    }
    let field = Field {
        piece,
        obstacles,
        distances: Distances::of(numbers, spacing, inset),
    };
    let mut marks = Marks {
        spots: &mut spots[..],
        unrooted: &mut unrooted[..],
        honoring: &honoring[..],
    };
    relax_sweeps(numbers, &field, &mut marks);
}
