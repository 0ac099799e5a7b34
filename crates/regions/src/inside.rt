// regions.rs, `point_in_polygon`.
ghost use Rattle.std.specs.Prelude.{◌≡◌, ◌+◌, ◌≤◌, ◌<◌, length};
ghost use Rattle.regions.specs.Inside.{intersect, flip, inside_after, point_in_polygon};
ghost use Rattle.regions.specs.Sides.{on_one_side};

use glyphs::rect::Point;

// Whether the ray from (x, y) crosses the edge between two vertices. There is no branch inside.
fn crosses(x: f64, y: f64, vi: Point, vj: Point) -> bool
    ensures { result ≡ intersect x y vi.x vi.y vj.x vj.y }
{
    let above = vi.y > y;
    let next_above = vj.y > y;
    (above != next_above)
        & (x < (vj.x - vi.x) * (y - vi.y) / (vj.y - vi.y + 2.220446049250313e-16) + vi.x)
}

// `inside`, turned over where the edge between two vertices is crossed.
pub fn turned_by(x: f64, y: f64, inside: bool, vi: Point, vj: Point) -> bool
    ensures { result ≡ flip (intersect x y vi.x vi.y vj.x vj.y) inside }
{
    inside != crosses(x, y, vi, vj)
}

// Whether the seventeen vertices from vertex `i` on are all above y, or all not, so that no edge between two of them is
// crossed. There is no branch inside.
fn on_one_side(y: f64, v: &[Point], i: usize) -> bool
    requires { i + 17 ≤ length v.now }
    ensures { result ≡ on_one_side y v.now i 17 }
{
    let mut above = 0;
    for k in 0..17 {
        above += (v[i + k].y > y) as usize;
    }
    (above == 0) | (above == 17)
}

// `inside` after the turns from `i` up to `e`.
fn turned_from(x: f64, y: f64, v: &[Point], i: usize, e: usize, inside: bool) -> bool
    requires { (0 < i) × (i ≤ e) × (e ≤ length v.now) × (inside ≡ inside_after x y v.now (length v.now) i) }
    ensures { result ≡ inside_after x y v.now (length v.now) e }
{
    let mut turned_over = inside;
    for k in i..e {
        turned_over = turned_by(x, y, turned_over, v[k], v[k - 1]);
    }
    turned_over
}

// `inside` after the sixteen turns from `i` on, which are passed over together where no edge is crossed.
fn turned_by_sixteen(x: f64, y: f64, v: &[Point], i: usize, inside: bool) -> bool
    requires { (0 < i) × (i + 16 ≤ length v.now) × (inside ≡ inside_after x y v.now (length v.now) i) }
    ensures { result ≡ inside_after x y v.now (length v.now) (i + 16) }
{
    if on_one_side(y, v, i - 1) {
        return inside;
    }
    turned_from(x, y, v, i, i + 16, inside)
}

pub fn point_in_polygon(x: f64, y: f64, v: &[Point]) -> bool
    ensures { result ≡ point_in_polygon x y v.now }
{
    let n = v.len();
    if n < 3 {
        return false;
    }
    let mut inside = crosses(x, y, v[0], v[n - 1]);
    let blocks = (n - 1) / 16;
    for block in 0..blocks {
        inside = turned_by_sixteen(x, y, v, block * 16 + 1, inside);
    }
    turned_from(x, y, v, blocks * 16 + 1, n, inside)
}
