// discs.rs, `pack_low_discrepancy_piece`: how many candidates are tried, and where they are.
ghost use Rattle.std.specs.Prelude.{◌≡◌, ◌<◌};
ghost use Rattle.glyphs.specs.Digits.{Weights};
ghost use Rattle.scatter.specs.LowDiscrepancy.{budget, halton_point};

use glyphs::bounds::Extents;
use glyphs::halton::{inverse_by, put_weights};
use glyphs::rect::Point;

// How many candidates a pass tries for n marks.
pub fn budget(n: usize) -> usize
    ensures { result ≡ budget n }
{
    n.saturating_mul(100).clamp(1024, 1_000_000)
}

// The Halton sequence, by the weights of the digits in its bases. They are lent: by value they are copied by calls of
// memcpy, a name that the probes' callers need not have.
#[derive(Clone, Copy)]
pub struct Halton<'a> {
    halves: &'a [f64; 64],
    thirds: &'a [f64; 64],
    ghost base_two: { Weights 2 halves.now },
    ghost base_three: { Weights 3 thirds.now },
}

impl<'a> Halton<'a> {
    // The sequence of the bases two and three, whose weights are written to the room that is lent.
    pub fn of_two_and_three(halves: &'a mut [f64; 64], thirds: &'a mut [f64; 64]) -> Halton<'a> {
        put_weights(2, &mut halves[..]);
        put_weights(3, &mut thirds[..]);
        Halton { halves, thirds }
    }

    // The point of an index in a box.
    pub fn point(&self, e: Extents, index: usize) -> Point
        requires { index < 1000000 }
        ensures { result ≡ halton_point e.min_x e.max_x e.min_y e.max_y index }
    {
        let Halton { halves, thirds } = *self;
        let number = index as u64 + 1;
        Point {
            x: e.min_x + (e.max_x - e.min_x) * inverse_by(halves, number, 2),
            y: e.min_y + (e.max_y - e.min_y) * inverse_by(thirds, number, 3),
        }
    }
}
