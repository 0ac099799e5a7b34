// discs.rs, `pack_random_piece`: darts thrown from a stream, and the scatter relaxed.
ghost use Rattle.std.specs.Prelude.{◌≡◌, ◌*◌, ◌≤◌, length, take};
ghost use Rattle.laws.specs.Lists.{written};
ghost use Rattle.glyphs.specs.Spots.{spots_of, flat};
ghost use Rattle.regions.specs.Pieces.{rings_of};
ghost use Rattle.relax.specs.Scatter.{relax_scatter};
ghost use Rattle.lattice.specs.Context.{inset, spacing};
ghost use Rattle.scatter.specs.Random.{pack_random_piece};
ghost use Rattle.scatter.specs.Darts.{Holds, lands_at, pass_from, throws_at, aimed};

use crate::site::Site;
use glyphs::bounds::Extents;
use glyphs::rect::{Point, Rectangle};
use glyphs::spots::{apart_from_all, put_spot, spots_before};
use glyphs::stream::{Drawn, Stream};
use lattice::context::PackCtx;
use lattice::uniform::piece_bounds;
use regions::piece::RegionPiece;
use relax::Spreading;
use relax::sweeps::relax_scatter;

// How many marks are placed, and the stream after them.
#[derive(Clone, Copy)]
pub struct Taken {
    pub count: usize,
    pub rng: Stream,
}

// Whether a place keeps the spacing to the marks placed, the margin, and, where it is to honor them, the obstacles.
fn lands(site: &Site, honor: bool, p: Point, placed: &[f64]) -> bool
    ensures { result ≡ lands_at site.now honor (spots_of placed.now) p }
{
    let spacing = site.ctx.spacing();
    apart_from_all(p, spacing * spacing, placed)
        && site.clears(p)
        && (!honor || site.clears_obstacles(p))
}

// Where the next dart is thrown: x is drawn, then y.
fn aim(rng: Stream, range: Extents) -> Drawn<Point>
    ensures { result ≡ aimed rng range }
{
    let x = rng.random_range(range.min_x, range.max_x);
    let y = x.next.random_range(range.min_y, range.max_y);
    Drawn {
        value: Point {
            x: x.value,
            y: y.value,
        },
        next: y.next,
    }
}

// One pass: marks behind those that `spots` has, until they are n or one is out of attempts. The next dart is aimed before
// one is judged: what becomes of that nobody can guess, and the stream waits for no answer. The passes differ in `honor`
// alone. A dart that lands goes on with the next mark, as in the source.
fn throw_glyphs(site: &Site, attempts: u32, honor: bool, start: Taken, spots: &mut [f64]) -> Taken
    requires { (start.count ≤ site.now.n) × (site.now.n * 2 ≤ length spots.old) }
    ensures { Holds (pass_from site.now attempts honor start.count start.rng spots.old) result spots.new spots.old }
{
    let n = site.n;
    let range = site.extents;
    let mut rng = start.rng;
    let mut ahead = aim(rng, range);
    'glyphs: for count in start.count..n {
        for _ in 0..attempts {
            let p = ahead.value;
            rng = ahead.next;
            ahead = aim(rng, range);
            let placed = spots_before(&spots[..], count);
            if lands(site, honor, p, placed) {
                put_spot(&mut spots[..], count, p);
                continue 'glyphs;
            }
        }
        return Taken { count, rng };
    }
    Taken { count: n, rng }
}

// Both passes; the second does not honor the obstacles.
fn throw_passes(site: &Site, attempts: u32, rng: Stream, spots: &mut [f64]) -> Taken
    requires { site.now.n * 2 ≤ length spots.old }
    ensures { Holds (throws_at site.now attempts rng) result spots.new spots.old }
{
    let start = Taken { count: 0, rng };
    let first = throw_glyphs(site, attempts, true, start, &mut spots[..]);
    if site.ends_first() {
        return first;
    }
    throw_glyphs(site, attempts, false, first, &mut spots[..])
}

// Evens out the first `count` marks of `spots`, which C lends as floats, two for each; `unrooted` and `honoring` lend the room
// for what relaxation notes of each.
fn relax_placed(
    numbers: Spreading,
    count: usize,
    site: &Site,
    unrooted: &mut [f64],
    honoring: &mut [bool],
    spots: &mut [f64],
)
    requires { (count ≤ length unrooted.old) × (count ≤ length honoring.old) × (count * 2 ≤ length spots.old) }
    ensures { spots.new
        ≡ written (flat (relax_scatter numbers (take count (spots_of spots.old)) (rings_of site.now.piece) site.now.near.now
        (spacing site.now.ctx) (inset site.now.ctx))) spots.old }
{
    relax_scatter(
        numbers,
        &mut spots[..count * 2],
        &mut unrooted[..count],
        &mut honoring[..count],
        site.piece,
        site.near,
        site.ctx.spacing(),
        site.ctx.inset(),
    );
}

// Writes the spots of a piece to the front of `spots`, whose room is lent; answers how many they are, with the stream after
// them. The parameters are the source's, and what is lent.
pub fn pack_random_piece(
    numbers: Spreading,
    piece: RegionPiece,
    n: usize,
    attempts: u32,
    ctx: PackCtx,
    obstacles: &[Rectangle],
    rng: Stream,
    near: &mut [Rectangle],
    unrooted: &mut [f64],
    honoring: &mut [bool],
    spots: &mut [f64],
) -> Taken
    requires { (length obstacles.now ≤ length near.old) × (n ≤ length unrooted.old) × (n ≤ length honoring.old) × (n * 2 ≤ length spots.old) }
    ensures { Holds (pack_random_piece numbers (rings_of piece.entry) n attempts ctx obstacles.now rng) result spots.new spots.old }
{
    let Some(extents) = piece_bounds(piece) else {
        return Taken { count: 0, rng };
    };
    let site = Site::of(piece, extents, n, ctx, obstacles, near);
    let taken = throw_passes(&site, attempts, rng, &mut spots[..]);
    if ctx.mode.spread {
        relax_placed(
            numbers,
            taken.count,
            &site,
            unrooted,
            honoring,
            &mut spots[..],
        );
    }
    taken
}
