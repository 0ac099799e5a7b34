// discs.rs: what the low-discrepancy and the random packer read of a piece.
ghost use Rattle.std.specs.Prelude.{◌≡◌, ◌≤◌, length};
ghost use Rattle.float.specs.Ops.{◌≥ᶠ◌};
ghost use Rattle.glyphs.specs.Rect.{clear_of_obstacles};
ghost use Rattle.regions.specs.Clearance.{signed_clearance};
ghost use Rattle.regions.specs.Pieces.{rings_of};
ghost use Rattle.lattice.specs.Context.{inset};

use glyphs::bounds::Extents;
use glyphs::rect::{Point, Rectangle};
use lattice::context::PackCtx;
use lattice::near::near_obstacles;
use regions::keeps::clears;
use regions::margin::Margin;
use regions::piece::RegionPiece;
use regions::pillars::clears_obstacles;

// A piece with its bounds, the marks wanted of it, what they are packed at, the obstacles near it, and the clearance kept
// from those and the rings.
#[derive(Clone, Copy)]
pub struct Site<'a> {
    pub piece: RegionPiece<'a>,
    pub extents: Extents,
    pub n: usize,
    pub ctx: PackCtx,
    pub near: &'a [Rectangle],
    pub margin: Margin,
    pub ghost at_inset: { margin.least ≡ inset ctx },
}

impl<'a> Site<'a> {
    ghost use Rattle.scatter.specs.Sites.{Beside, ends_first};

    // The site of a piece with the given bounds; the obstacles near it are written to the front of `near`.
    pub fn of(
        piece: RegionPiece<'a>,
        extents: Extents,
        n: usize,
        ctx: PackCtx,
        obstacles: &[Rectangle],
        near: &'a mut [Rectangle],
    ) -> Site<'a>
        requires { length obstacles.now ≤ length near.old }
        ensures piece { result.piece ≡ piece.entry }
        ensures extents { result.extents ≡ extents }
        ensures n { result.n ≡ n }
        ensures ctx { result.ctx ≡ ctx }
        ensures near { Beside result obstacles.now }
    {
        let inset = ctx.inset();
        let m = near_obstacles(obstacles, inset, extents, &mut near[..]);
        Site {
            piece,
            extents,
            n,
            ctx,
            near: &near[..m],
            margin: Margin::of(inset),
        }
    }

    // Whether a place keeps the clearance from the rings.
    pub fn clears(&self, p: Point) -> bool
        ensures { result ≡ (signed_clearance p.x p.y (rings_of self.now.piece) ≥ᶠ inset self.now.ctx) }
    {
        clears(p.x, p.y, self.piece, self.margin)
    }

    // Whether a place keeps the clearance from the obstacles.
    pub fn clears_obstacles(&self, p: Point) -> bool
        ensures { result ≡ clear_of_obstacles p.x p.y self.now.near.now (inset self.now.ctx) }
    {
        clears_obstacles(p.x, p.y, self.near, self.margin)
    }

    // Whether a packer's first pass, that honors the obstacles, is its only one: they are walls, or there are none.
    pub fn ends_first(&self) -> bool
        ensures { result ≡ ends_first self.now }
    {
        self.ctx.mode.strict_obstacles | self.near.is_empty()
    }
}
