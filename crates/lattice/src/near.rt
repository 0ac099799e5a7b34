// glyphs.rs, `obstacles_near`: the obstacles near a piece, written to a slice.
ghost use Rattle.std.specs.Prelude.{◌≡◌, ◌≤◌, Some, length, take};
ghost use Rattle.glyphs.specs.Rect.{obstacles_near};

use glyphs::bounds::Extents;
use glyphs::rect::{Rectangle, is_near};

// Writes the obstacles near a piece within the given extents to the front of `out`, and answers how many they are. Their
// number is answered, and not the slice, so that the contract can speak of the room after the call. There may be any number of
// obstacles, so room for as many is asked of callers.
pub fn near_obstacles(
    obstacles: &[Rectangle],
    inset: f64,
    extents: Extents,
    out: &mut [Rectangle],
) -> usize
    requires { length obstacles.now ≤ length out.old }
    ensures few { result ≤ length obstacles.now }
    ensures near { take result out.new ≡ obstacles_near (Some extents) obstacles.now inset }
    ensures room { length out.new ≡ length out.old }
{
    let mut m = 0;
    for rect in obstacles {
        if is_near(*rect, inset, extents) {
            out[m] = *rect;
            m += 1;
        }
    }
    m
}
