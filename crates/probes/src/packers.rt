// discs.rs, each packer on one piece, with at most 64 obstacles and the source's numbers.
ghost use Rattle.std.specs.Prelude.{◌≡◌, ◌*◌, ◌<◌, ◌≤◌, length};
ghost use Rattle.regions.specs.Ring.{sum};

use crate::no_flags::{
    probe_pack_low_discrepancy_no_flags, probe_pack_random_no_flags,
    probe_pack_rectangular_no_flags, probe_pack_uniform_no_flags,
};
use deepest::search::{Deepest, deepest_point};
use glyphs::mode::PackMode;
use glyphs::rect::{Point, Rectangle};
use glyphs::stream::Stream;
use lattice::context::PackCtx;
use lattice::uniform::{pack_uniform_piece, probe_uniform_piece};
use regions::piece::RegionPiece;
use scatter::low::lone_anchor;
use scatter::random::pack_random_piece;

// What a packer is packing, as probes.h has it: an arrangement's own function says which. Of `spread` and `strict` 1 is
// yes, and any other byte no; a truth value of C is one of the bytes 0 and 1.
#[derive(Clone, Copy)]
#[repr(C)]
pub struct Packing {
    pub radius: f64,
    pub gap: f64,
    pub boundary_gap: f64,
    pub precision: f64,
    pub quota: usize,
    pub attempts: u32,
    pub spread: u8,
    pub strict: u8,
}

// What is packed at; a trial of a lattice, which is not spread, is strict.
pub fn context(packing: &Packing, spread: bool, strict: bool) -> PackCtx
    ensures { (result.mode.spread ≡ spread) × (result.mode.strict_obstacles ≡ strict) }
{
    let mode = PackMode {
        spread,
        strict_obstacles: strict,
    };
    PackCtx {
        r: packing.radius,
        gap: packing.gap,
        boundary_gap: packing.boundary_gap,
        mode,
    }
}

// The lattice packer; a trial only counts. `rectangular` is data, as in the packer itself.
pub fn pack_lattice(
    rectangular: bool,
    piece: RegionPiece,
    obstacles: &[Rectangle],
    packing: &Packing,
    first: &mut [f64],
    second: &mut [f64],
    spots: &mut [f64],
) -> usize
    requires obstacles { length obstacles.now ≤ 64 }
    requires first { 8000 ≤ length first.old }
    requires some { 0 < packing.now.quota }
    requires second { packing.now.quota * 2 ≤ length second.old }
    requires spots { packing.now.quota * 2 ≤ length spots.old }
{
    let found = deepest_point(piece, packing.precision, &mut first[..8000]);
    let Deepest::Found(x, y, _) = found else {
        return 0;
    };
    let poi = Point { x, y };
    let n = packing.quota;
    let mut near = [Rectangle::default(); 64];
    if packing.spread == 1 {
        let ctx = context(packing, true, packing.strict == 1);
        return pack_uniform_piece(
            poi,
            piece,
            n,
            ctx,
            obstacles,
            rectangular,
            &mut near[..],
            second,
            spots,
        );
    }
    let ctx = context(packing, false, true);
    probe_uniform_piece(poi, piece, n, ctx, obstacles, rectangular, &mut near[..])
}

// The place that a lone mark tries first, from a search with room for 1,600 cells.
pub fn lone_place(
    piece: RegionPiece,
    packing: &Packing,
    obstacles: &[Rectangle],
    near: &mut [Rectangle],
    cells: &mut [f64],
) -> Option<Point>
    requires near { length obstacles.now ≤ length near.old }
    requires cells { 8000 ≤ length cells.old }
{
    let n = packing.quota;
    if n != 1 {
        return None;
    }
    let found = deepest_point(piece, packing.precision, &mut cells[..8000]);
    let Deepest::Found(x, y, _) = found else {
        return None;
    };
    let ctx = context(packing, packing.spread == 1, packing.strict == 1);
    lone_anchor(Point { x, y }, piece, n, ctx, obstacles, near)
}

// Random, with room for what relaxation notes of each of `n` marks.
pub fn pack_random(
    piece: RegionPiece,
    obstacles: &[Rectangle],
    packing: &Packing,
    n: usize,
    state: &mut u64,
    unrooted: &mut [f64],
    honoring: &mut [bool],
    spots: &mut [f64],
) -> usize
    requires obstacles { length obstacles.now ≤ 64 }
    requires unrooted { n ≤ length unrooted.old }
    requires honoring { n ≤ length honoring.old }
    requires spots { n * 2 ≤ length spots.old }
{
    let ctx = context(packing, packing.spread == 1, packing.strict == 1);
    let rng = Stream { state: *state };
    let mut near = [Rectangle::default(); 64];
    let taken = pack_random_piece(
        relax::Spreading::SOURCE,
        piece,
        n,
        packing.attempts,
        ctx,
        obstacles,
        rng,
        &mut near[..],
        unrooted,
        honoring,
        spots,
    );
    *state = taken.rng.state;
    taken.count
}

// The packers are four functions of one form to C: what one of them does not need, it leaves alone.
#[unsafe(no_mangle)]
pub extern "C" fn probe_pack_uniform(
    sizes: &[usize],
    points: &[Point],
    obstacles: &[Rectangle],
    packing: &Packing,
    state: &mut u64,
    first: &mut [f64],
    second: &mut [f64],
    flags: &mut [bool],
    spots: &mut [f64],
) -> usize
    requires outer { 0 < length sizes.now }
    requires within { sum sizes.now ≤ length points.now }
    requires obstacles { length obstacles.now ≤ 64 }
    requires first { 8000 ≤ length first.old }
    requires some { 0 < packing.now.quota }
    requires second { packing.now.quota * 2 ≤ length second.old }
    requires spots { packing.now.quota * 2 ≤ length spots.old }
{
    probe_pack_uniform_no_flags(
        sizes, points, obstacles, packing, state, first, second, spots,
    )
}

#[unsafe(no_mangle)]
pub extern "C" fn probe_pack_rectangular(
    sizes: &[usize],
    points: &[Point],
    obstacles: &[Rectangle],
    packing: &Packing,
    state: &mut u64,
    first: &mut [f64],
    second: &mut [f64],
    flags: &mut [bool],
    spots: &mut [f64],
) -> usize
    requires outer { 0 < length sizes.now }
    requires within { sum sizes.now ≤ length points.now }
    requires obstacles { length obstacles.now ≤ 64 }
    requires first { 8000 ≤ length first.old }
    requires some { 0 < packing.now.quota }
    requires second { packing.now.quota * 2 ≤ length second.old }
    requires spots { packing.now.quota * 2 ≤ length spots.old }
{
    probe_pack_rectangular_no_flags(
        sizes, points, obstacles, packing, state, first, second, spots,
    )
}

#[unsafe(no_mangle)]
pub extern "C" fn probe_pack_low_discrepancy(
    sizes: &[usize],
    points: &[Point],
    obstacles: &[Rectangle],
    packing: &Packing,
    state: &mut u64,
    first: &mut [f64],
    second: &mut [f64],
    flags: &mut [bool],
    spots: &mut [f64],
) -> usize
    requires outer { 0 < length sizes.now }
    requires within { sum sizes.now ≤ length points.now }
    requires obstacles { length obstacles.now ≤ 64 }
    requires first { 8000 ≤ length first.old }
    requires spots { packing.now.quota * 2 ≤ length spots.old }
{
    probe_pack_low_discrepancy_no_flags(
        sizes, points, obstacles, packing, state, first, second, spots,
    )
}

// Where the packer without flags can, it packs. The flags lent are for more marks than it has flags, and for a second slice
// that is shorter than it asks.
#[unsafe(no_mangle)]
pub extern "C" fn probe_pack_random(
    sizes: &[usize],
    points: &[Point],
    obstacles: &[Rectangle],
    packing: &Packing,
    state: &mut u64,
    first: &mut [f64],
    second: &mut [f64],
    flags: &mut [bool],
    spots: &mut [f64],
) -> usize
    requires outer { 0 < length sizes.now }
    requires within { sum sizes.now ≤ length points.now }
    requires obstacles { length obstacles.now ≤ 64 }
    requires first { packing.now.quota ≤ length first.old }
    requires flags { packing.now.quota ≤ length flags.old }
    requires spots { packing.now.quota * 2 ≤ length spots.old }
{
    if packing.quota <= 8000 && packing.quota <= second.len() {
        return probe_pack_random_no_flags(
            sizes, points, obstacles, packing, state, first, second, spots,
        );
    }
    pack_random(
        RegionPiece { sizes, points },
        obstacles,
        packing,
        packing.quota,
        state,
        first,
        flags,
        spots,
    )
}
