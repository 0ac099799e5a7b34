// regions.rs, `point_in_polygon` for many points of one height: where the height crosses each ring is found once.
ghost use Rattle.std.specs.Prelude.{◌≡◌, ◌≤◌, ◌++◌, length, take, IfSome};
ghost use Rattle.lattice.specs.Crossings.{crossing, crossing_if, crossings_of, odd, inside_level, Ends, Crossed};

use glyphs::rect::Point;
use regions::piece::RegionPiece;

// Where the height y crosses the edge between two vertices.
fn crossing(y: f64, vi: Point, vj: Point) -> f64
    ensures { result ≡ crossing y vi.x vi.y vj.x vj.y }
{
    (vj.x - vi.x) * (y - vi.y) / (vj.y - vi.y + 2.220446049250313e-16) + vi.x
}

// Puts the crossing of an edge behind the `c` that there are, and answers how many there are then, where it fits. They are
// the front of an array, for the reason that `LevelRoom` gives.
fn put_crossing(y: f64, vi: Point, vj: Point, crossings: &mut [f64], c: usize) -> Option<usize>
    requires { c ≤ length crossings.old }
    ensures { IfSome result (λ n. (n ≤ length crossings.new) × (take n crossings.new ≡ take c crossings.old ++ crossing_if y vi.x vi.y vj.x vj.y)) }
{
    let above = vi.y > y;
    let next_above = vj.y > y;
    if above == next_above {
        return Some(c);
    }
    if c < crossings.len() {
        crossings[c] = crossing(y, vi, vj);
        return Some(c + 1);
    }
    None
}

// Puts the crossings of a ring behind those that there are, and answers how many there are then, as `put_crossing` does. An
// edge ends at the vertex before its own, and the first one's at the last. That vertex is kept by reference: of most edges
// only the heights are read, and with the point itself a row takes some hundredths longer to find.
fn put_ring(y: f64, ring: &[Point], crossings: &mut [f64], start: usize) -> Option<usize>
    requires { start ≤ length crossings.old }
    ensures { IfSome result (λ n. (n ≤ length crossings.new) × (take n crossings.new ≡ take start crossings.old ++ crossings_of y ring.now)) }
{
    let n = ring.len();
    if n < 3 {
        return Some(start);
    }
    let mut c = start;
    let mut before = &ring[n - 1];
    for vertex in ring {
        c = put_crossing(y, *vertex, *before, &mut crossings[..], c)?;
        before = vertex;
    }
    Some(c)
}

// Finds where the height y crosses the rings: the crossings ring after ring, and how many there are up to the end of
// each ring. It answers how many crossings and ends they are, where they fit.
pub fn near_crossings(
    y: f64,
    piece: RegionPiece,
    crossings: &mut [f64],
    ends: &mut [usize],
) -> Option<(usize, usize)>
    ensures fit { IfSome result (λ found. (found.0 ≤ length crossings.new) × (found.1 ≤ length ends.new)) }
    ensures crossed { IfSome result (λ found. Crossed y piece.entry (take found.0 crossings.new) (take found.1 ends.new)) }
{
    let n = piece.sizes.len();
    if n > ends.len() {
        return None;
    }
    let mut c = 0;
    for (k, ring) in piece.rings().enumerate() {
        c = put_ring(y, ring, &mut crossings[..], c)?;
        ends[k] = c;
    }
    Some((c, n))
}

// Whether x is left of an odd number of crossings.
fn odd(x: f64, crossings: &[f64]) -> bool
    ensures { result ≡ odd x crossings.now }
{
    let mut inside = false;
    for c in crossings {
        inside = inside != (x < *c);
    }
    inside
}

// Whether x is inside the outer ring and no hole.
pub fn inside_level(x: f64, crossings: &[f64], ends: &[usize]) -> bool
    requires { Ends crossings.now ends.now }
    ensures { result ≡ inside_level x crossings.now ends.now }
{
    let mut from = ends[0];
    if !odd(x, &crossings[..from]) {
        return false;
    }
    for &to in &ends[1..] {
        if odd(x, &crossings[from..to]) {
            return false;
        }
        from = to;
    }
    true
}
