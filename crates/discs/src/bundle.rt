// What the packings of a call share, and what is lent to them.
ghost use Rattle.std.specs.Prelude.{◌≤◌, length};
ghost use Rattle.discs.specs.Floor.{Floor, floor_prop};
ghost use Rattle.discs.specs.Pieces.{StrictTrial};

use crate::layout::Layout;
use crate::options::GlyphOptions;
use crate::pieces::Pieces;
use deepest::search::Deepest;
use glyphs::rect::Rectangle;
use lattice::context::PackCtx;
use regions::piece::RegionPiece;
use relax::Spreading;

// The zones of a job, with the quotas and the deepest points of their pieces. These lie in two slices: the points are found by
// reading the quotas, and of one slice of both each call that puts points would also have to say that the quotas stay.
#[derive(Clone, Copy)]
pub struct Zones<'a> {
    pub bytes: &'a [u8],
    pub layout: Layout<'a>,
    pub quotas: &'a [usize],
    pub deepest: &'a [Deepest],
    pub ghost floor: { Floor bytes.now layout.rows.now layout.rings.now layout.sizes.now layout.points.now
        quotas.now deepest.now } by { floor_prop _ _ _ _ _ _ _ },
}

// A zone's key, and its pieces with the quota and the deepest point of each, which lie in two slices as those of all zones do.
#[derive(Clone, Copy)]
pub struct Region<'a> {
    pub key: &'a [u8],
    pub pieces: Pieces<'a>,
    pub quotas: &'a [usize],
    pub deepest: &'a [Deepest],
    pub ghost each_quota: { length pieces.rings.now ≤ length quotas.now },
    pub ghost each_deepest: { length pieces.rings.now ≤ length deepest.now },
}

// A piece with its quota and its deepest point.
#[derive(Clone, Copy)]
pub struct Share<'a> {
    pub piece: RegionPiece<'a>,
    pub quota: usize,
    pub deepest: Deepest,
}

// The numbers of the spreading, the options, and the obstacles that are not dropped.
#[derive(Clone, Copy)]
pub struct Packing<'a> {
    pub numbers: Spreading,
    pub options: GlyphOptions,
    pub obstacles: &'a [Rectangle],
}

// A packing at a radius: a trial of it, which is strict, or the final one.
#[derive(Clone, Copy)]
pub struct PackingAt<'a> {
    pub packing: Packing<'a>,
    pub ctx: PackCtx,
    pub ghost strict: { StrictTrial ctx.mode },
}

// Memory for the packing of one piece: for the obstacles near it, and for each mark a flag, and two floats, since C lends floats.
// Of obstacles there may be any number, so that room for them is asked for at each call.
#[derive(Drop)]
pub struct Lent<'a> {
    pub near: &'a mut [Rectangle],
    pub second: &'a mut [f64],
    pub flags: &'a mut [bool],
}

// Memory for 2,000 marks, with their spots, of two floats each.
#[derive(Drop)]
pub struct Work<'a> {
    pub lent: Lent<'a>,
    pub spots: &'a mut [f64],
    pub ghost room_second: { 4000 ≤ length lent.second.now },
    pub ghost room_flags: { 2000 ≤ length lent.flags.now },
    pub ghost room_spots: { 4000 ≤ length spots.now },
}
