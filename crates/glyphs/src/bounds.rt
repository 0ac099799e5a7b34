// glyphs.rs, `ring_bounds`.
ghost use Rattle.std.specs.Prelude.{◌≡◌};
ghost use Rattle.glyphs.specs.Bounds.{extents_of, ring_bounds};

use crate::rect::Point;

// The least and the greatest x, then y, of a ring.
#[derive(Clone, Copy)]
pub struct Extents {
    pub min_x: f64,
    pub max_x: f64,
    pub min_y: f64,
    pub max_y: f64,
}

pub fn ring_extents(ring: &[Point]) -> Extents
    ensures { result ≡ extents_of ring.now }
{
    let mut min_x = 1.0 / 0.0;
    let mut max_x = -1.0 / 0.0;
    let mut min_y = 1.0 / 0.0;
    let mut max_y = -1.0 / 0.0;
    for p in ring {
        min_x = float::min(min_x, p.x);
        max_x = float::max(max_x, p.x);
        min_y = float::min(min_y, p.y);
        max_y = float::max(max_y, p.y);
    }
    Extents {
        min_x,
        max_x,
        min_y,
        max_y,
    }
}

// The extents of a ring, where its width and height are above 0.
pub fn ring_bounds(ring: &[Point]) -> Option<Extents>
    ensures { result ≡ ring_bounds ring.now }
{
    if ring.len() < 3 {
        return None;
    }
    let bounds = ring_extents(ring);
    if (bounds.max_x > bounds.min_x) & (bounds.max_y > bounds.min_y) {
        return Some(bounds);
    }
    None
}
