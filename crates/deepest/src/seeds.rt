// regions.rs, `poi_with_holes`: the first cells.
ghost use Rattle.std.specs.Prelude.{◌≡◌, ◌/◌, [], length};
ghost use Rattle.regions.specs.Pieces.{rings_of};
ghost use Rattle.deepest.specs.Plant.{Seeds};
ghost use Rattle.deepest.specs.Deepest.{next_corner, first_corner, grid_from};

use crate::queue::half;
use crate::waiting::{NoRoom, Waiting};
use glyphs::bounds::Extents;
use glyphs::rect::Point;
use regions::clearance::signed_clearance;
use regions::piece::RegionPiece;

// The squares of a side that cover the bounds of a ring, each named by its lower left corner.
#[derive(Clone, Copy)]
pub struct Tiling {
    pub bounds: Extents,
    pub side: f64,
}

impl Tiling {
    #[tactic(auto, unfolding(crate::specs::Deepest::first_corner))]
    fn first_corner(self) -> Option<Point>
        ensures { result ≡ first_corner self.bounds }
    {
        let e = self.bounds;
        if (e.min_x < e.max_x) & (e.min_y < e.max_y) {
            return Some(Point {
                x: e.min_x,
                y: e.min_y,
            });
        }
        None
    }

    // The corner after one: up its column, then the next column.
    #[tactic(auto, unfolding(crate::specs::Deepest::next_corner))]
    fn next_corner(self, corner: Point) -> Option<Point>
        ensures { result ≡ next_corner self.bounds self.side corner }
    {
        let y = corner.y + self.side;
        if y < self.bounds.max_y {
            return Some(Point { x: corner.x, y });
        }
        let x = corner.x + self.side;
        if x < self.bounds.max_x {
            return Some(Point {
                x,
                y: self.bounds.min_y,
            });
        }
        None
    }
}

// Puts a cell for each square among those that wait, of which there is none yet.
pub fn seed(waiting: &mut Waiting, tiling: Tiling, piece: RegionPiece) -> Result<(), NoRoom>
    requires { (waiting.old.len ≡ 0) × (waiting.old.entered ≡ 0) }
    ensures { Seeds waiting.old
        (grid_from (rings_of piece.entry) waiting.old.halves.now tiling.bounds tiling.side
        (length waiting.old.cells.now) (first_corner tiling.bounds) [] 0)
        result waiting.new }
{
    let h0 = half(waiting.halves, 0);
    let mut next = tiling.first_corner();
    // Where `side` rounds away the corners have no end, so a `for` over them would need a `take` beside the test of the room.
    while let Some(corner) = next {
        if waiting.room() == 0 {
            return Err(NoRoom);
        }
        let place = Point {
            x: corner.x + h0,
            y: corner.y + h0,
        };
        let d = signed_clearance(place.x, place.y, piece);
        waiting.push(place, d, 0);
        next = tiling.next_corner(corner);
    }
    Ok(())
}
