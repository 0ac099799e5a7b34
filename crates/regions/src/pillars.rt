// glyphs.rs, `clear_of_obstacles` at a margin: mostly without a root.
ghost use Rattle.std.specs.Prelude.{◌≡◌};
ghost use Rattle.glyphs.specs.Rect.{clear_of_obstacles};
ghost use Rattle.regions.specs.Pillars.{beyond, rect_square};

use crate::margin::Margin;
use glyphs::rect::Rectangle;

// How far a coordinate is beyond the sides `length` apart around `center`; 0 between them.
pub fn beyond(p: f64, center: f64, length: f64) -> f64
    ensures { result ≡ beyond p center length }
{
    float::max(float::abs(p - center) - 0.5 * length, 0.0)
}

// The square of the distance from (px, py) to `rect`.
fn rect_square(px: f64, py: f64, rect: Rectangle) -> f64
    ensures { result ≡ rect_square px py rect }
{
    let dx = beyond(px, rect.center.x, rect.width);
    let dy = beyond(py, rect.center.y, rect.height);
    dx * dx + dy * dy
}

// Whether (px, py) keeps the margin to every obstacle.
pub fn clears_obstacles(px: f64, py: f64, obstacles: &[Rectangle], margin: Margin) -> bool
    ensures { result ≡ clear_of_obstacles px py obstacles.now margin.least }
{
    for rect in obstacles {
        if !margin.root_at_least(rect_square(px, py, *rect)) {
            return false;
        }
    }
    true
}
