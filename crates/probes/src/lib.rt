//! The inner layers for tests/differential and bench alone, as probes.h declares them: no entry of the product. What is
//! lent and answered is as C has it: a piece comes in two slices, and one of several cases is answered by a number.
#![tactic(auto)]

ghost use Rattle.std.specs.Prelude.{◌≡◌, ◌*◌, ◌/◌, ◌<◌, ◌≤◌, length};
ghost use Rattle.float.specs.Ops.{◌≤ᶠ◌};
ghost use Rattle.glyphs.specs.Spots.{spots_of, flat};
ghost use Rattle.regions.specs.Ring.{sum, piece_of};
ghost use Rattle.regions.specs.Area.{piece_area};
ghost use Rattle.regions.specs.Clearance.{signed_clearance};
ghost use Rattle.relax.specs.Scatter.{source, relax_scatter};

use deepest::search::{Deepest, deepest_point};
use glyphs::rect::{Point, Rectangle, is_near};
use regions::four::{Four, four_clearances};
use regions::keeps::{clearance_at_least, clears};
use regions::margin::Margin;
use regions::piece::RegionPiece;

mod no_flags;
mod packers;

#[unsafe(no_mangle)]
pub extern "C" fn probe_signed_clearance(sizes: &[usize], points: &[Point], x: f64, y: f64) -> f64
    requires { (0 < length sizes.now) × (sum sizes.now ≤ length points.now) }
    ensures { result ≡ signed_clearance x y (piece_of sizes.now points.now) }
{
    regions::clearance::signed_clearance(x, y, RegionPiece { sizes, points })
}

#[unsafe(no_mangle)]
pub extern "C" fn probe_four_clearances(
    sizes: &[usize],
    points: &[Point],
    places: &[Point; 4],
    found: &mut [f64; 4],
)
    requires { (0 < length sizes.now) × (sum sizes.now ≤ length points.now) }
{
    let [a, b, c, d] = *places;
    let four = four_clearances(Four { a, b, c, d }, RegionPiece { sizes, points });
    *found = [four.a, four.b, four.c, four.d];
}

#[unsafe(no_mangle)]
pub extern "C" fn probe_clearance_at_least(
    sizes: &[usize],
    points: &[Point],
    x: f64,
    y: f64,
    c: f64,
) -> bool
    requires { (0 < length sizes.now) × (sum sizes.now ≤ length points.now) }
    ensures { result ≡ (c ≤ᶠ signed_clearance x y (piece_of sizes.now points.now)) }
{
    clearance_at_least(x, y, RegionPiece { sizes, points }, c)
}

// How many of the places have a clearance of at least c.
#[unsafe(no_mangle)]
pub extern "C" fn probe_count_clear(
    sizes: &[usize],
    points: &[Point],
    places: &[Point],
    c: f64,
) -> u64
    requires { (0 < length sizes.now) × (sum sizes.now ≤ length points.now) }
{
    let piece = RegionPiece { sizes, points };
    let margin = Margin::of(c);
    places
        .iter()
        .filter(|p| clears(p.x, p.y, piece, margin))
        .count() as u64
}

#[unsafe(no_mangle)]
pub extern "C" fn probe_point_in_polygon(ring: &[Point], x: f64, y: f64) -> bool {
    regions::inside::point_in_polygon(x, y, ring)
}

#[unsafe(no_mangle)]
pub extern "C" fn probe_area(sizes: &[usize], points: &[Point]) -> f64
    requires { (0 < length sizes.now) × (sum sizes.now ≤ length points.now) }
    ensures { result ≡ piece_area (piece_of sizes.now points.now) }
{
    regions::area::piece_area(RegionPiece { sizes, points })
}

#[unsafe(no_mangle)]
pub extern "C" fn probe_ring_bounds(ring: &[Point], bounds: &mut [f64; 4]) -> bool {
    let Some(e) = glyphs::bounds::ring_bounds(ring) else {
        return false;
    };
    *bounds = [e.min_x, e.max_x, e.min_y, e.max_y];
    true
}

// Sets the flags of the obstacles that are near, and answers how many they are.
#[unsafe(no_mangle)]
pub extern "C" fn probe_obstacles_near(
    sizes: &[usize],
    points: &[Point],
    obstacles: &[Rectangle],
    clearance: f64,
    near: &mut [u8],
) -> u64
    requires { (0 < length sizes.now) × (sum sizes.now ≤ length points.now) × (length near.old ≤ length obstacles.now) }
{
    let piece = RegionPiece { sizes, points };
    let Some(extents) = glyphs::bounds::ring_bounds(piece.outer()) else {
        near.fill(0);
        return 0;
    };
    let mut many = 0u64;
    for (k, flag) in near.iter_mut().enumerate() {
        let found = is_near(obstacles[k], clearance, extents);
        *flag = u8::from(found);
        many += u64::from(found);
    }
    many
}

// The marks, at most 2,000, with the source's numbers.
#[unsafe(no_mangle)]
pub extern "C" fn probe_relax_scatter(
    sizes: &[usize],
    points: &[Point],
    obstacles: &[Rectangle],
    spacing: f64,
    inset: f64,
    spots: &mut [f64],
)
    requires outer { 0 < length sizes.now }
    requires within { sum sizes.now ≤ length points.now }
    requires whole { length spots.old ≡ length spots.old / 2 * 2 }
    requires few { length spots.old / 2 ≤ 2000 }
    ensures { spots.new ≡ flat (relax_scatter source (spots_of spots.old) (piece_of sizes.now points.now) obstacles.now spacing inset) }
{
    let n = spots.len() / 2;
    let mut unrooted = [0.0; 2000];
    let mut honoring = [false; 2000];
    relax::sweeps::relax_scatter(
        relax::Spreading::SOURCE,
        spots,
        &mut unrooted[..n],
        &mut honoring[..n],
        RegionPiece { sizes, points },
        obstacles,
        spacing,
        inset,
    );
}

// Whether a search has room, with as many cells as are lent.
fn has_room(piece: RegionPiece, precision: f64, cells: &mut [f64]) -> bool
    requires { length cells.old ≤ 500000 }
{
    !matches!(deepest_point(piece, precision, cells), Deepest::Full)
}

// The most cells that wait at once in a search that has room with 1,600: the least number with which it has room.
// Halving is written out: no slice is searched, and each test writes to the cells.
fn most_waiting(piece: RegionPiece, precision: f64, cells: &mut [f64]) -> usize
    requires { 8000 ≤ length cells.old }
    ensures { result ≤ 1600 }
{
    let mut low = 0;
    let mut span = 1600;
    while 0 < span {
        let half = span / 2;
        let n = (low + half) * 5;
        if has_room(piece, precision, &mut cells[..n]) {
            span = half;
        } else {
            low = low + half + 1;
            span = span - half - 1;
        }
    }
    low
}

#[unsafe(no_mangle)]
pub extern "C" fn probe_deepest_point(
    sizes: &[usize],
    points: &[Point],
    precision: f64,
    first: &mut [f64],
    second: &mut [f64],
    found: &mut [f64; 3],
    waiting: &mut u32,
) -> u8
    requires { (0 < length sizes.now) × (sum sizes.now ≤ length points.now) × (8000 ≤ length first.old) }
{
    let piece = RegionPiece { sizes, points };
    match deepest_point(piece, precision, &mut first[..8000]) {
        Deepest::Full => {
            *waiting = 1601;
            15
        }
        Deepest::Nothing => {
            *waiting = most_waiting(piece, precision, first) as u32;
            0
        }
        Deepest::Found(x, y, d) => {
            *waiting = most_waiting(piece, precision, first) as u32;
            *found = [x, y, d];
            1
        }
    }
}

// The clearance of the deepest point, for the measurements: 0 where there is none, -1 without room.
#[unsafe(no_mangle)]
pub extern "C" fn probe_depth(
    sizes: &[usize],
    points: &[Point],
    precision: f64,
    cells: &mut [f64],
) -> f64
    requires { (0 < length sizes.now) × (sum sizes.now ≤ length points.now) × (length cells.old ≤ 500000) }
{
    match deepest_point(RegionPiece { sizes, points }, precision, cells) {
        Deepest::Full => -1.0,
        Deepest::Nothing => 0.0,
        Deepest::Found(_, _, d) => d,
    }
}
