// relax.rs, `Field`.
ghost use Rattle.std.specs.Prelude.{◌≡◌, option_map};
ghost use Rattle.float.specs.Ops.{◌*ᶠ◌};
ghost use Rattle.glyphs.specs.Rect.{clear_of_obstacles};
ghost use Rattle.glyphs.specs.Spots.{spots_of};
ghost use Rattle.regions.specs.Margins.{margin_of};
ghost use Rattle.regions.specs.Pieces.{rings_of};
ghost use Rattle.regions.specs.Unrooted.{rooted};
ghost use Rattle.relax.specs.Field.{clearance_gradient, push_inward, force_on, clear_of_others, accepts};

use crate::distances::Distances;
use crate::marks::Mark;
use crate::push::{Force, push_others};
use glyphs::rect::{Point, Rectangle};
use glyphs::spots::{apart, apart_from_all, count_near};
use regions::four::{Four, four_clearances};
use regions::piece::RegionPiece;
use regions::pillars::clears_obstacles;
use regions::unrooted::{rooted, rooted_below, unrooted_clearance};

// What the marks are evened out within: a piece, its obstacles, and the distances that marks keep there.
#[derive(Clone, Copy)]
pub struct Field<'a> {
    pub piece: RegionPiece<'a>,
    pub obstacles: &'a [Rectangle],
    pub distances: Distances,
    pub ghost inset_margin: { distances.margin ≡ margin_of distances.inset },
    pub ghost reach_margin: { distances.reach ≡ margin_of distances.boundary_reach },
}

impl<'a> Field<'a> {
    // The direction in which the clearance rises most, or none where it is flat.
    fn clearance_gradient(&self, p: Point) -> Option<Force>
        ensures { result ≡ clearance_gradient self.now.distances (rings_of self.now.piece) p }
    {
        let h = self.distances.probe;
        let Point { x, y } = p;
        let places = Four {
            a: Point { x: x + h, y },
            b: Point { x: x - h, y },
            c: Point { x, y: y + h },
            d: Point { x, y: y - h },
        };
        let around = four_clearances(places, self.piece);
        let gx = around.a - around.b;
        let gy = around.c - around.d;
        let norm = float::hypot(gx, gy);
        if norm > 1e-12 {
            return Some(Force {
                x: gx / norm,
                y: gy / norm,
            });
        }
        None
    }

    // The boundary's push along the gradient, added.
    #[tactic(auto, unfolding(crate::specs::Field::push_inward))]
    fn push_inward(&self, clearance: f64, gradient: Option<Force>, f: Force) -> Force
        ensures { result ≡ push_inward self.now.distances clearance gradient f }
    {
        let Some(g) = gradient else {
            return f;
        };
        let d = &self.distances;
        let w = d.boundary_weight * (d.boundary_reach - clearance) / d.boundary_reach;
        Force {
            x: f.x + w * g.x,
            y: f.y + w * g.y,
        }
    }

    pub fn force_on(&self, mark: Mark) -> Force
        ensures { result
            ≡ force_on self.now.distances (rings_of self.now.piece) mark.entry.i (spots_of mark.entry.spots.now) (rooted mark.entry.unrooted) }
    {
        // The gradient stands first: the others' pushes are worked out while its roots are waited for.
        let influence = self.distances.influence;
        if rooted_below(mark.unrooted, self.distances.reach)
            & (self.distances.boundary_reach > 0.0)
        {
            let gradient = self.clearance_gradient(mark.place());
            let f = push_others(influence, mark);
            return self.push_inward(rooted(mark.unrooted), gradient, f);
        }
        push_others(influence, mark)
    }

    // Whether a place keeps the spacing to all marks but one. Of few marks those too near are counted, that one among them,
    // with no branch.
    fn clear_of_others(&self, place: Point, mark: Mark) -> bool
        ensures { result
            ≡ clear_of_others place (self.now.distances.spacing *ᶠ self.now.distances.spacing) mark.entry.i 0 (spots_of mark.entry.spots.now) }
    {
        let least = self.distances.spacing * self.distances.spacing;
        if mark.spots.len() <= 64 {
            let own = !apart(place, least, mark.place());
            return count_near(place, least, mark.spots) == own as usize;
        }
        let before = apart_from_all(place, least, mark.earlier());
        before & apart_from_all(place, least, mark.later())
    }

    // Whether a place is clear of the obstacles.
    fn clears(&self, place: Point) -> bool
        ensures { result ≡ clear_of_obstacles place.x place.y self.now.obstacles.now self.now.distances.inset }
    {
        clears_obstacles(place.x, place.y, self.obstacles, self.distances.margin)
    }

    // The clearance of a place that a mark may move to, its root not taken. The tests stand in the order of their cost, not of
    // the source: none reads what another finds.
    pub fn accepts(&self, candidate: Point, mark: Mark) -> Option<f64>
        ensures { option_map rooted result
            ≡ accepts self.now.distances (rings_of self.now.piece) self.now.obstacles.now candidate mark.entry.i
            (spots_of mark.entry.spots.now)
            mark.entry.honoring }
    {
        if !self.clear_of_others(candidate, mark) {
            return None;
        }
        if mark.honoring && !self.clears(candidate) {
            return None;
        }
        let unrooted = unrooted_clearance(candidate.x, candidate.y, self.piece);
        if rooted_below(unrooted, self.distances.margin) {
            return None;
        }
        Some(unrooted)
    }
}
