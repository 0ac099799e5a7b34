// regions.rs, `RegionPiece`: an outer ring and its holes.
ghost use Rattle.std.specs.Prelude.{◌<◌, ◌≤◌, length};
ghost use Rattle.regions.specs.Ring.{sum};

use glyphs::rect::Point;

// The sizes of the rings in vertices, the outer ring first, and their vertices, ring after ring.
#[derive(Clone, Copy)]
pub struct RegionPiece<'a> {
    pub sizes: &'a [usize],
    pub points: &'a [Point],
    pub ghost outer_ring: { 0 < length sizes.now },
    pub ghost room: { sum sizes.now ≤ length points.now },
}

// The rings of a piece that are still to come.
#[derive(Clone, Copy)]
pub struct Rings<'a> {
    pub sizes: &'a [usize],
    pub points: &'a [Point],
    pub ghost room: { sum sizes.now ≤ length points.now },
}

impl<'a> RegionPiece<'a> {
    ghost use Rattle.std.specs.Prelude.{◌≡◌, slice_index};
    ghost use Rattle.regions.specs.Ring.{outer, holes};
    ghost use Rattle.regions.specs.Pieces.{rings_of, rings_left};

    // The outer ring, then the holes.
    pub fn rings(self) -> Rings<'a>
        ensures { rings_left result ≡ rings_of self.entry }
    {
        Rings {
            sizes: self.sizes,
            points: self.points,
        }
    }

    pub fn outer(self) -> &'a [Point]
        ensures ring { result.now ≡ outer (rings_of self.entry) }
        ensures vertices { length result.now ≡ slice_index self.entry.sizes.now 0 }
    {
        &self.points[..self.sizes[0]]
    }

    pub fn holes(self) -> Rings<'a>
        ensures { rings_left result ≡ holes (rings_of self.entry) }
    {
        let mut rings = self.rings();
        rings.next();
        rings
    }
}

impl<'a> Iterator for Rings<'a> {
    type Item = &'a [Point];

    ghost use Rattle.std.specs.Iterator.{YieldsFirstRef, item_count};
    ghost use Rattle.regions.specs.Pieces.{rings_left};

    ghost next_gives = { YieldsFirstRef rings_left };

    ghost remaining = { item_count rings_left };

    fn next(&mut self) -> Option<&'a [Point]> {
        let (size, sizes) = self.sizes.split_first()?;
        let (ring, points) = self.points.split_at(*size);
        self.sizes = sizes;
        self.points = points;
        Some(ring)
    }
}
