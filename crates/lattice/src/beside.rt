// The obstacles of a row, found once: its places ask only those that are not too far above or below it.
ghost use Rattle.std.specs.Prelude.{◌≡◌, ◌≤◌, length, take, IfSome};
ghost use Rattle.lattice.specs.Beside.{abreast, BesideOf};

use crate::site::Site;
use glyphs::rect::Rectangle;
use regions::margin::Margin;
use regions::pillars::beyond;

// Whether an obstacle may be too near a place at the height `y`.
fn abreast(y: f64, rect: Rectangle, margin: Margin) -> bool
    ensures { result ≡ abreast y margin.high rect }
{
    let dy = beyond(y, rect.center.y, rect.height);
    !(dy * dy >= margin.high)
}

// The obstacles beside a row at the height y, at the front of `room`, and how many they are, where they fit. The room is an
// array, for the reason that `LevelRoom` gives.
pub fn find_beside(y: f64, site: Site, room: &mut [Rectangle]) -> Option<usize>
    ensures { IfSome result (λ m. (m ≤ length room.new) × BesideOf y (take m room.new) site.entry) }
{
    let mut m = 0;
    for rect in site.near {
        if abreast(y, *rect, site.margin) {
            if m >= room.len() {
                return None;
            }
            room[m] = *rect;
            m += 1;
        }
    }
    Some(m)
}
