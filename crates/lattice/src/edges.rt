// The edges of a piece that lie near a height, found once for a row of cells, and the test of a place against them.
ghost use Rattle.std.specs.Prelude.{◌≡◌, ◌<◌, ◌≤◌, true, length, take, IfSome};
ghost use Rattle.float.specs.Ops.{◌<ᶠ◌, 0ᶠ};
ghost use Rattle.rounding.specs.Bounds.{Sized};
ghost use Rattle.regions.specs.Pieces.{rings_of};
ghost use Rattle.lattice.specs.Far.{Sure, Beyond};
ghost use Rattle.lattice.specs.Edges.{edge_at, keeps, keeps_edges, NearEdges, Added, AddedRing};

use crate::site::Site;
use glyphs::rect::Point;
use regions::clearance::edge_square;
use regions::margin::Margin;
use regions::ring::after;

// The edge of a ring from one vertex to the next: no other struct of this crate is of two points.
#[derive(Clone, Copy, Default)]
pub struct Edge {
    pub from: Point,
    pub to: Point,
}

// Whether a value is so small that no sum of a few such overflows.
fn is_modest(v: f64) -> bool
    ensures { result ≡ true → Sized v 1048576 }
{
    if v >= -1048576.0 {
        return v <= 1048576.0;
    }
    false
}

// How far off a height an edge is too far to matter, or NaN where that is not sure: it passes no comparison, so that no edge
// is far then, and none needs a branch for it, as an `Option` would.
fn reach_of(y: f64, margin: Margin) -> f64
    ensures { Sure margin.least y result }
{
    let reach = margin.least * 1.0001;
    if !is_modest(y) {
        return 0.0 / 0.0;
    }
    if !is_modest(reach) {
        return 0.0 / 0.0;
    }
    if reach >= 0.0 {
        if reach * reach >= margin.high {
            return reach;
        }
    }
    0.0 / 0.0
}

// Whether an edge lies `reach` or more above `y`, or as far below.
fn is_far(y: f64, reach: f64, edge: Edge) -> bool
    ensures { result ≡ true → Beyond y reach edge.from.y edge.to.y }
{
    let ay = edge.from.y;
    let by = edge.to.y;
    let here = y - ay;
    let there = y - (ay + (by - ay));
    if here >= reach {
        if there >= reach {
            return is_modest(ay) & is_modest(by);
        }
        return false;
    }
    if here <= -reach {
        if there <= -reach {
            return is_modest(ay) & is_modest(by);
        }
    }
    false
}

// The edge from the vertex `i` of a ring on.
fn edge_at(ring: &[Point], i: usize) -> Edge
    requires { i < length ring.now }
    ensures { result ≡ edge_at ring.now (length ring.now) i }
{
    Edge {
        from: ring[i],
        to: ring[after(ring.len(), i)],
    }
}

// Puts an edge behind the `m` of a list unless it is far, and answers how many there are then, where it fits. The list is
// the front of an array, for the reason that `LevelRoom` gives.
fn put_near(y: f64, reach: f64, edge: Edge, edges: &mut [Edge], m: usize) -> Option<usize>
    requires { m ≤ length edges.old }
    ensures { IfSome result (λ n. (n ≤ length edges.new) × Added y reach edge (take m edges.old) (take n edges.new)) }
{
    if is_far(y, reach, edge) {
        return Some(m);
    }
    if m < edges.len() {
        edges[m] = edge;
        return Some(m + 1);
    }
    None
}

// Puts the near edges of a ring behind the `start` of a list.
fn put_ring(y: f64, reach: f64, ring: &[Point], edges: &mut [Edge], start: usize) -> Option<usize>
    requires { start ≤ length edges.old }
    ensures { IfSome result (λ n. (n ≤ length edges.new) × AddedRing y reach ring.now (take start edges.old) (take n edges.new)) }
{
    let n = ring.len();
    if n < 2 {
        return Some(start);
    }
    let mut m = start;
    for i in 0..n {
        m = put_near(y, reach, edge_at(ring, i), &mut edges[..], m)?;
    }
    Some(m)
}

// The edges of a piece near the height `y`, at the front of `edges`, and how many they are, where they fit.
pub fn near_edges(y: f64, site: Site, edges: &mut [Edge]) -> Option<usize>
    requires { 0ᶠ <ᶠ site.margin.least ≡ true }
    ensures { IfSome result (λ n. (n ≤ length edges.new) × NearEdges y site.entry.margin.least (rings_of site.entry.piece) (take n edges.new)) }
{
    let reach = reach_of(y, site.margin);
    let mut m = 0;
    for ring in site.piece.rings() {
        m = put_ring(y, reach, ring, &mut edges[..], m)?;
    }
    Some(m)
}

// Whether the distance from a place to an edge is not below the margin's. NaN is below nothing, while
// `root_at_least` refuses it.
fn keeps_edge(p: Point, edge: Edge, margin: Margin) -> bool
    ensures { result ≡ keeps p.x p.y margin.least edge }
{
    let square = edge_square(p.x, p.y, edge.from, edge.to);
    if square >= margin.high {
        return true;
    }
    if square < margin.low {
        return false;
    }
    !(float::root(square) < margin.least)
}

// Whether a place keeps its distance from each of some edges.
pub fn keeps_edges(p: Point, edges: &[Edge], margin: Margin) -> bool
    ensures { result ≡ keeps_edges p.x p.y margin.least edges.now }
{
    for edge in edges {
        if !keeps_edge(p, *edge, margin) {
            return false;
        }
    }
    true
}
