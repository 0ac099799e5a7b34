// The marks that are evened out, and what is noted of each. The floats lie in slices that C lends, two a mark
// and one.
ghost use Rattle.std.specs.Prelude.{◌≡◌, ◌*◌, ◌/◌, ◌<◌, length};

use glyphs::rect::Point;
use glyphs::spots::{spot, spots_after, spots_before};

// The places of the marks, the clearance of each, its root not taken, and whether it was clear of the obstacles at first.
#[derive(Drop)]
pub struct Marks<'a> {
    pub spots: &'a mut [f64],
    pub unrooted: &'a mut [f64],
    pub honoring: &'a [bool],
    pub ghost pairs: { length spots.now ≡ length unrooted.now * 2 },
    pub ghost flags: { length honoring.now ≡ length unrooted.now },
}

// Mark `i` of those at `spots`, with what is noted of it.
#[derive(Clone, Copy)]
pub struct Mark<'a> {
    pub spots: &'a [f64],
    pub i: usize,
    pub unrooted: f64,
    pub honoring: bool,
    pub ghost within: { i < length spots.now / 2 },
}

impl<'a> Mark<'a> {
    ghost use Rattle.std.specs.Prelude.{◌+◌, take, drop};
    ghost use Rattle.glyphs.specs.Spots.{spot_at, spots_of};

    pub fn place(self) -> Point
        ensures { result ≡ spot_at self.entry.spots.now self.entry.i }
    {
        spot(self.spots, self.i)
    }

    // The marks before it.
    pub fn earlier(self) -> &'a [f64]
        ensures { spots_of result.now ≡ take self.entry.i (spots_of self.entry.spots.now) }
    {
        spots_before(self.spots, self.i)
    }

    // The marks after it.
    pub fn later(self) -> &'a [f64]
        ensures { spots_of result.now ≡ drop (self.entry.i + 1) (spots_of self.entry.spots.now) }
    {
        spots_after(self.spots, self.i)
    }
}
