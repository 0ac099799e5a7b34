// glyphs.rs, `sanitize_obstacles`: the obstacles that are not dropped, put into a vector.
ghost use Rattle.std.specs.Prelude.{◌≡◌, ◌+◌, ◌≤◌, ◌++◌, length};
ghost use Rattle.glyphs.specs.Rect.{sanitize_obstacles};

use arrayvec::ArrayVec;
use glyphs::rect::{Rectangle, is_sane};

// Puts the sane obstacles behind those of `out`.
pub fn sanitize_obstacles<const N: usize>(obstacles: &[Rectangle], out: &mut ArrayVec<Rectangle, N>)
    requires { length out.old.items + length obstacles.now ≤ N }
    ensures { out.new.items ≡ out.old.items ++ sanitize_obstacles obstacles.now }
{
    for rect in obstacles {
        if is_sane(*rect) {
            out.push(*rect);
        }
    }
}
