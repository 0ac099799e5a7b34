// relax.rs, `relax_scatter`: one mark of a sweep.
ghost use Rattle.std.specs.Prelude.{◌≡◌, suc, ◌/◌, ◌<◌, length};
ghost use Rattle.glyphs.specs.Spots.{spots_of};
ghost use Rattle.regions.specs.Pieces.{rings_of};
ghost use Rattle.relax.specs.Scatter.{relax_point};
ghost use Rattle.relax.specs.Moves.{scatter_of, surroundings, first_accepted, pushed_to, settled, told_of, Keeps};

use crate::Spreading;
use crate::field::Field;
use crate::marks::{Mark, Marks};
use crate::push::Force;
use glyphs::rect::{Point, is_finite};
use glyphs::spots::put_spot;

// Where a mark moves to, and the clearance of that place, its root not taken.
#[derive(Clone, Copy)]
pub struct Move {
    pub to: Point,
    pub clearance: f64,
}

// A step of length `first` in a direction, halved at each refusal, `backtracks` times at most.
fn first_accepted(
    field: &Field,
    mark: Mark,
    towards: Force,
    backtracks: u32,
    first: f64,
) -> Option<Move>
    ensures { told_of result
        ≡ first_accepted field.now.distances (rings_of field.now.piece) field.now.obstacles.now mark.entry.i
        (spots_of mark.entry.spots.now) mark.entry.honoring towards (suc backtracks) first }
{
    let p = mark.place();
    let mut step = first;
    for _ in 0..=backtracks {
        let to = Point {
            x: p.x + towards.x * step,
            y: p.y + towards.y * step,
        };
        if let Some(clearance) = field.accepts(to, mark) {
            return Some(Move { to, clearance });
        }
        step = step * 0.5;
    }
    None
}

// Where a push moves a mark to.
fn pushed_to(field: &Field, mark: Mark, f: Force, backtracks: u32, max_step: f64) -> Option<Move>
    ensures { told_of result
        ≡ pushed_to field.now.distances (rings_of field.now.piece) field.now.obstacles.now mark.entry.i
        (spots_of mark.entry.spots.now) mark.entry.honoring f (suc backtracks) max_step }
{
    let magnitude = float::hypot(f.x, f.y);
    if !is_finite(magnitude) | (magnitude <= 0.0) {
        return None;
    }
    let towards = Force {
        x: f.x / magnitude,
        y: f.y / magnitude,
    };
    let step = max_step * float::min(magnitude, 1.0);
    first_accepted(field, mark, towards, backtracks, step)
}

// Moves mark `i`, if it moves.
fn settle(marks: &mut Marks, i: usize, moved: Option<Move>)
    requires { i < length marks.old.honoring.now }
    ensures keeps { Keeps marks.old marks.new }
    ensures moved { scatter_of marks.new ≡ settled (scatter_of marks.old) i (told_of moved) }
{
    let Some(m) = moved else {
        return;
    };
    put_spot(&mut marks.spots[..], i, m.to);
    marks.unrooted[i] = m.clearance;
}

// Where mark `i` moves to in a sweep with steps of `max_step` at most.
fn move_of(
    numbers: Spreading,
    field: &Field,
    max_step: f64,
    marks: &Marks,
    i: usize,
) -> Option<Move>
    requires { i < length marks.now.honoring.now }
    ensures { settled (scatter_of marks.now) i (told_of result)
        ≡ relax_point numbers (surroundings field.now marks.now.honoring.now) max_step (scatter_of marks.now) i }
{
    let mark = Mark {
        spots: marks.spots,
        i,
        unrooted: marks.unrooted[i],
        honoring: marks.honoring[i],
    };
    let f = field.force_on(mark);
    pushed_to(field, mark, f, numbers.backtracks, max_step)
}

pub fn relax_point(numbers: Spreading, field: &Field, max_step: f64, marks: &mut Marks, i: usize)
    requires { i < length marks.old.honoring.now }
    ensures keeps { Keeps marks.old marks.new }
    ensures moved { scatter_of marks.new ≡ relax_point numbers (surroundings field.now marks.old.honoring.now) max_step (scatter_of marks.old) i }
{
    let moved = move_of(numbers, field, max_step, marks, i);
    settle(marks, i, moved);
}
