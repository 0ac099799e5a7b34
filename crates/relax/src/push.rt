// relax.rs, `force_on`: the pushes of the neighbours.
ghost use Rattle.std.specs.Prelude.{◌≡◌, true, ◌+◌, ◌/◌, ◌≤◌, ◌<◌, length, take, drop};
ghost use mathlib.Core.List.{foldl};
ghost use Rattle.glyphs.specs.Spots.{spots_of, squared_distance};
ghost use Rattle.float.specs.Order.{sqrt};
ghost use Rattle.relax.specs.Field.{at, no_force, push_of, pushes};
ghost use Rattle.relax.specs.Others.{reaches};

use crate::marks::Mark;
use glyphs::rect::{Point, squared_distance};
use glyphs::spots::{apart, apart_from_eight, put_spot, spot};

// A push on a mark.
#[derive(Clone, Copy)]
pub struct Force {
    pub x: f64,
    pub y: f64,
}

// Whether a neighbour pushes, by the square of its distance.
fn reaches(influence: f64, d2: f64) -> bool
    ensures { result ≡ reaches influence d2 }
{
    !((d2 <= 0.0) | (d2 >= influence * influence))
}

// The push of the neighbour q, which is at the distance d, added to the push so far.
fn pushed(influence: f64, p: Point, f: Force, q: Point, d: f64) -> Force
    requires { (reaches influence (squared_distance p q) ≡ true) × (d ≡ sqrt (squared_distance p q)) }
    ensures { result ≡ push_of influence p f q }
{
    let w = (influence - d) / influence;
    Force {
        x: f.x + w * (p.x - q.x) / d,
        y: f.y + w * (p.y - q.y) / d,
    }
}

// The push of the neighbour q on p, added to the push so far.
fn push(influence: f64, p: Point, f: Force, q: Point) -> Force
    ensures { result ≡ push_of influence p f q }
{
    let d2 = squared_distance(p, q);
    if reaches(influence, d2) {
        return pushed(influence, p, f, q, float::root(d2));
    }
    f
}

// The pushes of q and, after it, of r. Where both push their roots are worked out side by side.
fn push_two(influence: f64, p: Point, f: Force, q: Point, r: Point) -> Force
    ensures { result ≡ push_of influence p (push_of influence p f q) r }
{
    let d2 = squared_distance(p, q);
    let e2 = squared_distance(p, r);
    if reaches(influence, d2) & reaches(influence, e2) {
        let [d, e] = float::each_root([d2, e2]);
        let first = pushed(influence, p, f, q, d);
        return pushed(influence, p, first, r, e);
    }
    push(influence, p, push(influence, p, f, q), r)
}

// The pushes of all marks of a slice, two at a time.
fn push_near(influence: f64, p: Point, start: Force, spots: &[f64]) -> Force
    ensures { result ≡ foldl (push_of influence p) start (spots_of spots.now) }
{
    let (pairs, last) = spots.as_chunks::<4>();
    let mut f = start;
    for pair in pairs {
        f = push_two(influence, p, f, spot(&pair[..], 0), spot(&pair[..], 1));
    }
    if last.len() < 2 {
        return f;
    }
    push(influence, p, f, spot(last, 0))
}

// The pushes of the eight marks of a block. Mostly all are too far away, and eight are told so at once, with no branch for each.
fn push_eight(influence: f64, p: Point, start: Force, block: &[f64; 16]) -> Force
    ensures { result ≡ foldl (push_of influence p) start (spots_of block.now) }
{
    if apart_from_eight(p, influence * influence, block) {
        return start;
    }
    push_near(influence, p, start, &block[..])
}

// The pushes of all marks of a slice. Mostly they are too far away.
fn push_all(influence: f64, p: Point, start: Force, spots: &[f64]) -> Force
    ensures { result ≡ foldl (push_of influence p) start (spots_of spots.now) }
{
    let (blocks, rest) = spots.as_chunks::<16>();
    let mut f = start;
    for block in blocks {
        f = push_eight(influence, p, f, block);
    }
    push_near(influence, p, f, rest)
}

// Puts the marks of a slice that are near enough to push behind the `m` of a list, and answers how many there are then.
// Which these are nobody can guess, so there is no branch on it: a mark that is not is overwritten. A vector has nothing
// to overwrite behind its last, so the list is the front of an array, with its count beside it. It is of coordinates, as
// the marks are, so that `push_near` goes through both.
fn gather(influence: f64, p: Point, spots: &[f64], near: &mut [f64], m: usize) -> usize
    requires { m + length spots.now / 2 ≤ length near.old / 2 }
    ensures few { result ≤ m + length spots.now / 2 }
    ensures room { length near.new ≡ length near.old }
    ensures pushes { (f : Force) → foldl (push_of influence p) f (take result (spots_of near.new))
        ≡ foldl (push_of influence p) (foldl (push_of influence p) f (take m (spots_of near.old))) (spots_of spots.now) }
{
    let reach = influence * influence;
    let mut count = m;
    for k in 0..spots.len() / 2 {
        let q = spot(spots, k);
        put_spot(&mut near[..], count, q);
        let far = apart(p, reach, q);
        count += (!far) as usize;
    }
    count
}

// The pushes of all other marks on a mark, which is at p: of few marks those near enough are gathered first.
fn push_few(influence: f64, p: Point, mark: Mark) -> Force
    requires { length mark.spots.now ≤ 64 }
    ensures { result
        ≡ foldl (push_of influence p) (foldl (push_of influence p) no_force (take mark.entry.i (spots_of mark.entry.spots.now)))
        (drop (mark.entry.i + 1) (spots_of mark.entry.spots.now)) }
{
    let mut near = [0.0; 64];
    let before = gather(influence, p, mark.earlier(), &mut near[..], 0);
    let all = gather(influence, p, mark.later(), &mut near[..], before);
    push_near(influence, p, Force { x: 0.0, y: 0.0 }, &near[..all * 2])
}

// The pushes of all other marks on a mark.
pub fn push_others(influence: f64, mark: Mark) -> Force
    ensures { result
        ≡ pushes influence mark.entry.i (at (spots_of mark.entry.spots.now) mark.entry.i) 0 (spots_of mark.entry.spots.now) no_force }
{
    let p = mark.place();
    if mark.spots.len() <= 64 {
        return push_few(influence, p, mark);
    }
    let f = push_all(influence, p, Force { x: 0.0, y: 0.0 }, mark.earlier());
    push_all(influence, p, f, mark.later())
}
