// Marks as a slice of their coordinates, x and y in turn, as C lends them.
ghost use Rattle.std.specs.Prelude.{◌≡◌, ◌+◌, ◌/◌, ◌<◌, ◌≤◌, length, take, drop};
ghost use Rattle.laws.specs.Any.{all};
ghost use Rattle.glyphs.specs.Spots.{spot_at, put_spot, spots_of, apart, near_count};

use crate::rect::{Point, squared_distance};

// Mark `i`.
pub fn spot(spots: &[f64], i: usize) -> Point
    requires { i < length spots.now / 2 }
    ensures { result ≡ spot_at spots.now i }
{
    let a = i * 2;
    Point {
        x: spots[a],
        y: spots[a + 1],
    }
}

pub fn put_spot(spots: &mut [f64], i: usize, p: Point)
    requires { i < length spots.old / 2 }
    ensures { spots.new ≡ put_spot spots.old i p }
{
    let a = i * 2;
    spots[a] = p.x;
    spots[a + 1] = p.y;
}

// The marks before mark `i`.
pub fn spots_before(spots: &[f64], i: usize) -> &[f64]
    requires { i < length spots.now / 2 }
    ensures { spots_of result.now ≡ take i (spots_of spots.now) }
{
    let e = i * 2;
    &spots[..e]
}

// The marks after mark `i`.
pub fn spots_after(spots: &[f64], i: usize) -> &[f64]
    requires { i < length spots.now / 2 }
    ensures { spots_of result.now ≡ drop (i + 1) (spots_of spots.now) }
{
    let a = (i + 1) * 2;
    &spots[a..]
}

// Whether p keeps a distance whose square is `least` from a mark.
pub fn apart(p: Point, least: f64, q: Point) -> bool
    ensures { result ≡ apart p least q }
{
    squared_distance(p, q) >= least
}

// The same for the eight marks of a block, with no branch.
pub fn apart_from_eight(p: Point, least: f64, block: &[f64; 16]) -> bool
    ensures { result ≡ all (apart p least) (spots_of block.now) }
{
    let mut ok = true;
    for j in 0..8 {
        ok = ok & apart(p, least, spot(&block[..], j));
    }
    ok
}

// The same for all marks. Whether one is too near nobody can guess, so that of the last of them, fewer than 32, none is
// branched on.
pub fn apart_from_all(p: Point, least: f64, spots: &[f64]) -> bool
    ensures { result ≡ all (apart p least) (spots_of spots.now) }
{
    let n = spots.len() / 2;
    let (front, last) = spots.split_at(n.saturating_sub(24) / 8 * 16);
    let (blocks, _) = front.as_chunks::<16>();
    for block in blocks {
        if !apart_from_eight(p, least, block) {
            return false;
        }
    }
    let mut ok = true;
    for i in 0..last.len() / 2 {
        ok = ok & apart(p, least, spot(last, i));
    }
    ok
}

// How many of the marks are too near for that, with no branch.
pub fn count_near(p: Point, least: f64, spots: &[f64]) -> usize
    ensures { result ≡ near_count p least (spots_of spots.now) }
{
    let n = spots.len() / 2;
    let mut count = 0;
    for k in 0..n {
        count += (!apart(p, least, spot(spots, k))) as usize;
    }
    count
}
