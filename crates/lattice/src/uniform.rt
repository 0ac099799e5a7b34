// discs.rs, `pack_uniform_piece`: the lattice packer for one piece, whose deepest point is given.
ghost use Rattle.std.specs.Prelude.{◌≡◌, ◌*◌, ◌<◌, ◌≤◌, true, false, length};
ghost use Rattle.glyphs.specs.Bounds.{ring_bounds};
ghost use Rattle.regions.specs.Ring.{outer};
ghost use Rattle.regions.specs.Pieces.{rings_of};
ghost use Rattle.lattice.specs.Around.{field_at, near_of};
ghost use Rattle.lattice.specs.Context.{inset};
ghost use Rattle.lattice.specs.Flat.{Puts};
ghost use Rattle.lattice.specs.Uniform.{anchor_of, pack_around};

use crate::context::{Lattice, PackCtx};
use crate::count::count_cells;
use crate::escape::escape_obstacles;
use crate::near::near_obstacles;
use crate::rows::Field;
use crate::site::Site;
use crate::spread::pack_field;
use glyphs::bounds::{Extents, ring_bounds};
use glyphs::rect::{Point, Rectangle};
use regions::margin::Margin;
use regions::piece::RegionPiece;

// The bounds of a piece's outer ring.
pub fn piece_bounds(piece: RegionPiece) -> Option<Extents>
    ensures { result ≡ ring_bounds (outer (rings_of piece.entry)) }
{
    ring_bounds(piece.outer())
}

// The deepest point, moved off the obstacles near its piece.
fn anchor_of(poi: Point, site: Site) -> Point
    ensures { result ≡ anchor_of poi (rings_of site.entry.piece) site.entry.near.now site.entry.margin.least }
{
    if site.near.is_empty() {
        return poi;
    }
    escape_obstacles(poi, site.piece, site.near, site.margin.least)
}

// The lattice about a deepest point. `rectangular` is data, which of two lattices the caller packs: it goes into the lattice's
// field as it is.
fn field_at(poi: Point, site: Site, ctx: PackCtx, rectangular: bool, extents: Extents) -> Field
    requires { site.margin.least ≡ inset ctx }
    ensures { result ≡ field_at poi (rings_of site.entry.piece) ctx site.entry.near.now rectangular extents }
{
    Field {
        anchor: anchor_of(poi, site),
        lattice: Lattice {
            spacing: ctx.spacing(),
            rectangular,
        },
        extents,
    }
}

// What the places of a piece are judged by.
fn site_of<'a>(
    piece: RegionPiece<'a>,
    ctx: PackCtx,
    obstacles: &[Rectangle],
    extents: Extents,
    near: &'a mut [Rectangle],
) -> Site<'a>
    requires { length obstacles.now ≤ length near.old }
    ensures rings { rings_of result.piece ≡ rings_of piece.entry }
    ensures least { result.margin.least ≡ inset ctx }
    ensures near { result.near.now ≡ near_of ctx obstacles.now extents }
{
    let inset = ctx.inset();
    let m = near_obstacles(obstacles, inset, extents, &mut near[..]);
    Site {
        piece,
        margin: Margin::of(inset),
        near: &near[..m],
    }
}

// Writes the spots of a piece whose deepest point is `poi` to the front of `spots` and answers how many they are. The
// parameters are the source's, and what is lent.
pub fn pack_uniform_piece(
    poi: Point,
    piece: RegionPiece,
    n: usize,
    ctx: PackCtx,
    obstacles: &[Rectangle],
    rectangular: bool,
    near: &mut [Rectangle],
    blocked: &mut [f64],
    spots: &mut [f64],
) -> usize
    requires { (0 < n) × (ctx.mode.spread ≡ true) × (length obstacles.now ≤ length near.old) × (n * 2 ≤ length blocked.old)
        × (n * 2 ≤ length spots.old) }
    ensures { Puts (pack_around poi (rings_of piece.entry) n ctx obstacles.now rectangular) result spots.new spots.old }
{
    let Some(extents) = piece_bounds(piece) else {
        return 0;
    };
    let site = site_of(piece, ctx, obstacles, extents, &mut near[..]);
    let field = field_at(poi, site, ctx, rectangular, extents);
    pack_field(
        field,
        site,
        n,
        ctx.mode.strict_obstacles,
        &mut blocked[..],
        &mut spots[..],
    )
}

// How many spots a trial packing of a piece has. The parameters are the source's, and what is lent; `rectangular` is data, as
// in `field_at`.
pub fn probe_uniform_piece(
    poi: Point,
    piece: RegionPiece,
    n: usize,
    ctx: PackCtx,
    obstacles: &[Rectangle],
    rectangular: bool,
    near: &mut [Rectangle],
) -> usize
    requires { (0 < n) × (ctx.mode.spread ≡ false) × (ctx.mode.strict_obstacles ≡ true) × (length obstacles.now ≤ length near.old) }
    ensures { result ≡ length (pack_around poi (rings_of piece.entry) n ctx obstacles.now rectangular) }
{
    let Some(extents) = piece_bounds(piece) else {
        return 0;
    };
    let site = site_of(piece, ctx, obstacles, extents, &mut near[..]);
    let field = field_at(poi, site, ctx, rectangular, extents);
    n.min(count_cells(field, site, n).free)
}
