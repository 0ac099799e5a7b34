// The pieces of a region, which lie end to end in slices.
ghost use Rattle.std.specs.Prelude.{◌≡◌, ◌<◌, ◌^◌};
ghost use Rattle.regions.specs.Ring.{sum};
ghost use Rattle.discs.specs.Pieces.{Laid, laid_prop};

use glyphs::rect::Point;
use regions::piece::RegionPiece;

// How many rings each piece has, the sizes of all rings in vertices, and their points.
#[derive(Clone, Copy)]
pub struct Pieces<'a> {
    pub rings: &'a [usize],
    pub sizes: &'a [usize],
    pub points: &'a [Point],
    pub ghost laid: { Laid rings.now sizes.now points.now } by { laid_prop rings.now sizes.now points.now },
}

pub fn total(counts: &[usize]) -> usize
    requires { sum counts.now < 2 ^ 64 }
    ensures { result ≡ sum counts.now }
{
    counts.iter().sum()
}

impl<'a> Iterator for Pieces<'a> {
    type Item = RegionPiece<'a>;

    ghost use Rattle.std.specs.Iterator.{YieldsFirstBy, item_count};
    ghost use Rattle.regions.specs.Pieces.{rings_of};
    ghost use Rattle.discs.specs.Slices.{pieces_left};

    ghost next_gives = { YieldsFirstBy rings_of pieces_left };

    ghost remaining = { item_count pieces_left };

    fn next(&mut self) -> Option<RegionPiece<'a>> {
        let (rings, later) = self.rings.split_first()?;
        let (sizes, others) = self.sizes.split_at(*rings);
        let points = self.points;
        let (_, rest) = points.split_at(total(sizes));
        self.rings = later;
        self.sizes = others;
        self.points = rest;
        Some(RegionPiece { sizes, points })
    }
}
