// point.rs and rectangle.rs, as data, and glyphs.rs: obstacles.
ghost use Rattle.std.specs.Prelude.{◌≡◌};
ghost use Rattle.glyphs.specs.Rect.{is_finite, dist_to_rect, clear_of_obstacles, sane, near};
ghost use Rattle.glyphs.specs.Spots.{squared_distance};

use crate::bounds::Extents;

#[derive(Clone, Copy, Default)]
#[repr(C)]
pub struct Point {
    pub x: f64,
    pub y: f64,
}

pub fn squared_distance(p: Point, q: Point) -> f64
    ensures { result ≡ squared_distance p q }
{
    (p.x - q.x) * (p.x - q.x) + (p.y - q.y) * (p.y - q.y)
}

#[derive(Clone, Copy, Default)]
#[repr(C)]
pub struct Rectangle {
    pub center: Point,
    pub width: f64,
    pub height: f64,
}

// The distance from (px, py) to the nearest point of `rect`; 0 where the point is inside it.
pub fn dist_to_rect(px: f64, py: f64, rect: Rectangle) -> f64
    ensures { result ≡ dist_to_rect px py rect }
{
    let dx = float::abs(px - rect.center.x) - 0.5 * rect.width;
    let dy = float::abs(py - rect.center.y) - 0.5 * rect.height;
    float::hypot(float::max(dx, 0.0), float::max(dy, 0.0))
}

// Whether (px, py) keeps `clearance` to every obstacle.
pub fn clear_of_obstacles(px: f64, py: f64, obstacles: &[Rectangle], clearance: f64) -> bool
    ensures { result ≡ clear_of_obstacles px py obstacles.now clearance }
{
    for rect in obstacles {
        if !(dist_to_rect(px, py, *rect) >= clearance) {
            return false;
        }
    }
    true
}

pub fn is_finite(x: f64) -> bool
    ensures { result ≡ is_finite x }
{
    x.is_finite()
}

// Whether `sanitize_obstacles` keeps an obstacle.
pub fn is_sane(rect: Rectangle) -> bool
    ensures { result ≡ sane rect }
{
    is_finite(rect.center.x)
        & is_finite(rect.center.y)
        & (rect.width > 0.0)
        & (rect.height > 0.0)
        & is_finite(rect.width)
        & is_finite(rect.height)
}

// Whether `obstacles_near` keeps an obstacle, for a piece within the given bounds.
pub fn is_near(rect: Rectangle, clearance: f64, bounds: Extents) -> bool
    ensures { result ≡ near rect clearance bounds.min_x bounds.max_x bounds.min_y bounds.max_y }
{
    let half_w = 0.5 * rect.width + clearance;
    let half_h = 0.5 * rect.height + clearance;
    let cx = rect.center.x;
    let cy = rect.center.y;
    (cx + half_w >= bounds.min_x)
        & (cx - half_w <= bounds.max_x)
        & (cy + half_h >= bounds.min_y)
        & (cy - half_h <= bounds.max_y)
}
