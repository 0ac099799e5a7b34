// The packers as C calls them without lending flags for relaxation.
ghost use Rattle.std.specs.Prelude.{◌*◌, ◌<◌, ◌≤◌, length};
ghost use Rattle.regions.specs.Ring.{sum};

use crate::packers::{Packing, context, lone_place, pack_lattice, pack_random};
use glyphs::rect::{Point, Rectangle};
use regions::piece::RegionPiece;
use scatter::low::pack_low_discrepancy_piece;

// What a packer does not need, it leaves alone.
#[unsafe(no_mangle)]
pub extern "C" fn probe_pack_uniform_no_flags(
    sizes: &[usize],
    points: &[Point],
    obstacles: &[Rectangle],
    packing: &Packing,
    state: &mut u64,
    first: &mut [f64],
    second: &mut [f64],
    spots: &mut [f64],
) -> usize
    requires outer { 0 < length sizes.now }
    requires within { sum sizes.now ≤ length points.now }
    requires obstacles { length obstacles.now ≤ 64 }
    requires first { 8000 ≤ length first.old }
    requires some { 0 < packing.now.quota }
    requires second { packing.now.quota * 2 ≤ length second.old }
    requires spots { packing.now.quota * 2 ≤ length spots.old }
{
    let piece = RegionPiece { sizes, points };
    pack_lattice(false, piece, obstacles, packing, first, second, spots)
}

#[unsafe(no_mangle)]
pub extern "C" fn probe_pack_rectangular_no_flags(
    sizes: &[usize],
    points: &[Point],
    obstacles: &[Rectangle],
    packing: &Packing,
    state: &mut u64,
    first: &mut [f64],
    second: &mut [f64],
    spots: &mut [f64],
) -> usize
    requires outer { 0 < length sizes.now }
    requires within { sum sizes.now ≤ length points.now }
    requires obstacles { length obstacles.now ≤ 64 }
    requires first { 8000 ≤ length first.old }
    requires some { 0 < packing.now.quota }
    requires second { packing.now.quota * 2 ≤ length second.old }
    requires spots { packing.now.quota * 2 ≤ length spots.old }
{
    let piece = RegionPiece { sizes, points };
    pack_lattice(true, piece, obstacles, packing, first, second, spots)
}

#[unsafe(no_mangle)]
pub extern "C" fn probe_pack_low_discrepancy_no_flags(
    sizes: &[usize],
    points: &[Point],
    obstacles: &[Rectangle],
    packing: &Packing,
    state: &mut u64,
    first: &mut [f64],
    second: &mut [f64],
    spots: &mut [f64],
) -> usize
    requires outer { 0 < length sizes.now }
    requires within { sum sizes.now ≤ length points.now }
    requires obstacles { length obstacles.now ≤ 64 }
    requires first { 8000 ≤ length first.old }
    requires spots { packing.now.quota * 2 ≤ length spots.old }
{
    let ctx = context(packing, packing.spread == 1, packing.strict == 1);
    let mut near = [Rectangle::default(); 64];
    let piece = RegionPiece { sizes, points };
    let anchor = lone_place(piece, packing, obstacles, &mut near[..], first);
    pack_low_discrepancy_piece(
        anchor,
        piece,
        packing.quota,
        ctx,
        obstacles,
        &mut near[..],
        spots,
    )
}

// There is a flag for each float of a work slice, as long as probes.h has them, and no more marks are packed.
#[unsafe(no_mangle)]
pub extern "C" fn probe_pack_random_no_flags(
    sizes: &[usize],
    points: &[Point],
    obstacles: &[Rectangle],
    packing: &Packing,
    state: &mut u64,
    first: &mut [f64],
    second: &mut [f64],
    spots: &mut [f64],
) -> usize
    requires outer { 0 < length sizes.now }
    requires within { sum sizes.now ≤ length points.now }
    requires obstacles { length obstacles.now ≤ 64 }
    requires first { packing.now.quota ≤ length first.old }
    requires second { packing.now.quota ≤ length second.old }
    requires spots { packing.now.quota * 2 ≤ length spots.old }
{
    let mut flags = [false; 8000];
    pack_random(
        RegionPiece { sizes, points },
        obstacles,
        packing,
        packing.quota.min(8000),
        state,
        first,
        &mut flags[..],
        spots,
    )
}
