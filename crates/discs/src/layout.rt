// The zones of a job as they lie in slices, and the walk over them.
ghost use Rattle.std.specs.Prelude.{◌≡◌, drop};
ghost use Rattle.discs.specs.Pieces.{pieces_of};
ghost use Rattle.discs.specs.Slices.{pieces_left};
ghost use Rattle.discs.specs.Floor.{cut, past_row, EachRow, Within, rows_within_prop, start};

use crate::pieces::{Pieces, total};
use crate::rows::{Offsets, Row, ZoneAt};
use glyphs::rect::Point;

// The row of each zone, and the rings, their sizes and their points over all zones.
#[derive(Clone, Copy)]
pub struct Layout<'a> {
    pub rows: &'a [Row],
    pub rings: &'a [usize],
    pub sizes: &'a [usize],
    pub points: &'a [Point],
    pub ghost within: { EachRow rings.now sizes.now (Within rings.now sizes.now points.now) rows.now start } by { rows_within_prop _ _ _ _ _ },
}

impl<'a> Layout<'a> {
    ghost use Rattle.discs.specs.ZoneWalk.{WalksOver};

    // The pieces of a zone.
    pub fn pieces(self, zone: ZoneAt) -> Pieces<'a>
        requires { Within self.rings.now self.sizes.now self.points.now zone.row zone.at }
        ensures pieces { pieces_left result
            ≡ pieces_of
            (cut zone.at.piece zone.row.pieces self.entry.rings.now)
            (drop zone.at.ring self.entry.sizes.now)
            (drop zone.at.point self.entry.points.now) }
        ensures rings { result.rings.now ≡ cut zone.at.piece zone.row.pieces self.entry.rings.now }
    {
        let ZoneAt { row, at } = zone;
        let (_, rings) = self.rings.split_at(at.piece);
        let (_, sizes) = self.sizes.split_at(at.ring);
        let (_, points) = self.points.split_at(at.point);
        Pieces {
            rings: &rings[..row.pieces],
            sizes,
            points,
        }
    }

    // Where the zone after one starts.
    pub fn past(self, zone: ZoneAt) -> Offsets
        requires { Within self.rings.now self.sizes.now self.points.now zone.row zone.at }
        ensures { result ≡ past_row self.entry.rings.now self.entry.sizes.now zone.row zone.at }
    {
        let ZoneAt { row, at } = zone;
        let (_, rings) = self.rings.split_at(at.piece);
        let (_, sizes) = self.sizes.split_at(at.ring);
        let (own, _) = sizes.split_at(total(&rings[..row.pieces]));
        Offsets {
            piece: at.piece + row.pieces,
            ring: at.ring + own.len(),
            point: at.point + total(own),
        }
    }

    // The zones, one by one.
    pub fn walk(self) -> Walk<'a>
        ensures { WalksOver self.entry result }
    {
        Walk {
            layout: self,
            rows: self.rows,
            at: Offsets::START,
        }
    }
}

// The zones of a job that are still to come.
#[derive(Clone, Copy)]
pub struct Walk<'a> {
    pub layout: Layout<'a>,
    pub rows: &'a [Row],
    pub at: Offsets,
    pub ghost within: { EachRow layout.rings.now layout.sizes.now
        (Within layout.rings.now layout.sizes.now layout.points.now) rows.now at } by { rows_within_prop _ _ _ _ _ },
}

impl<'a> Iterator for Walk<'a> {
    type Item = ZoneAt;

    ghost use Rattle.std.specs.Iterator.{item_count};
    ghost use Rattle.discs.specs.ZoneWalk.{GivesZone, rows_left};

    ghost next_gives = { GivesZone };

    ghost remaining = { item_count rows_left };

    fn next(&mut self) -> Option<ZoneAt> {
        let (row, later) = self.rows.split_first()?;
        let zone = ZoneAt {
            row: *row,
            at: self.at,
        };
        let next = self.layout.past(zone);
        self.rows = later;
        self.at = next;
        Some(zone)
    }
}
