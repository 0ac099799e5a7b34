// discs.rs, `pack_uniform_piece`: the spacing widened, and the cells taken, once the lattice is anchored.
ghost use Rattle.std.specs.Prelude.{◌≡◌, ◌+◌, ◌*◌, ◌<◌, ◌≤◌, length, if◌then◌else◌, nat_le};
ghost use Rattle.std.proofs.Math.Seq.{paste};
ghost use Rattle.lattice.specs.Flat.{Puts};
ghost use Rattle.lattice.specs.Site.{in_site};
ghost use Rattle.lattice.specs.Spread.{with_spacing, field_fits, field_widen, field_spacing, field_take, field_pack};

use crate::context::Lattice;
use crate::count::{Counts, count_with};
use crate::gather::gather_cells;
use crate::rows::Field;
use crate::site::Site;
use crate::tables::Tables;

fn at_spacing(field: Field, s: f64) -> Field
    ensures { result ≡ with_spacing field s }
{
    Field {
        anchor: field.anchor,
        lattice: Lattice {
            spacing: s,
            rectangular: field.lattice.rectangular,
        },
        extents: field.extents,
    }
}

// Whether the piece may use `n` cells, free ones only where it is `honoring` its obstacles.
fn is_enough(honoring: bool, t: Counts, n: usize) -> bool
    ensures { result ≡ nat_le n (t.free + (if honoring then 0 else t.blocked)) }
{
    let free = t.free;
    if free >= n {
        return true;
    }
    if honoring {
        return false;
    }
    t.blocked >= n - free
}

// Copies cells behind the first `at` spots. C lends both as floats, two for each. By a loop: `copy_from_slice` calls
// memmove, which would be a name that a caller in C must have.
fn append(spots: &mut [f64], at: usize, cells: &[f64])
    requires { at * 2 + length cells.now ≤ length spots.old }
    ensures { spots.new ≡ paste spots.old (at * 2) cells.now (length cells.now) }
{
    let a = at * 2;
    for (k, x) in cells.iter().enumerate() {
        spots[a + k] = *x;
    }
}

// How many blocked cells are wanted where `n` cells are: none by a packing that is honoring its obstacles.
fn none_if(honoring: bool, n: usize) -> usize
    ensures { result ≡ (if honoring then 0 else n) }
{
    if honoring {
        return 0;
    }
    n
}

// A packing of a lattice's cells: how many are wanted, and whether it is honoring its obstacles, which is data: it says
// which cells count.
#[derive(Clone, Copy)]
struct Packing<'a> {
    field: Field,
    site: Site<'a>,
    n: usize,
    honoring: bool,
    ghost some: { 0 < n },
}

impl Packing<'_> {
    // Whether the cells that are wanted are there at a spacing.
    fn fits_at(self, s: f64, tables: &mut Tables) -> bool
        ensures { result ≡ in_site field_fits self.entry.site self.entry.n self.entry.field self.entry.honoring s }
    {
        let widened = at_spacing(self.field, s);
        let t = count_with(widened, self.site, self.n, tables);
        is_enough(self.honoring, t, self.n)
    }

    // Of two spacings, at the lower of which the cells are there, the largest found between them, in at most 24 halvings.
    fn widen(self, s_max: f64, low: f64, high: f64, tables: &mut Tables) -> f64
        ensures { result ≡ in_site field_widen self.entry.site self.entry.n self.entry.field self.entry.honoring s_max 24 low high }
    {
        let mut lo = low;
        let mut hi = high;
        for _turn in 0..24usize {
            if hi - lo <= 0.001 * s_max {
                return lo;
            }
            let mid = 0.5 * (lo + hi);
            if self.fits_at(mid, tables) {
                lo = mid;
            } else {
                hi = mid;
            }
        }
        lo
    }

    // The spacing widened to the largest found at which the cells are there.
    fn spread_spacing(self, tables: &mut Tables) -> f64
        ensures { result ≡ in_site field_spacing self.entry.site self.entry.n self.entry.field self.entry.honoring }
    {
        let e = self.field.extents;
        let s_min = self.field.lattice.spacing;
        let s_max = float::hypot(e.max_x - e.min_x, e.max_y - e.min_y);
        let hi = float::max(s_max, s_min);
        if self.fits_at(hi, tables) {
            return hi;
        }
        self.widen(s_max, s_min, hi, tables)
    }

    // The wanted cells nearest to the anchor: free ones first, then, where it is not honoring its obstacles, blocked ones.
    // The packing is lent: by value it is copied by a call of memcpy, a name that the probes' callers need not have.
    fn take_cells(&self, blocked: &mut [f64], spots: &mut [f64]) -> usize
        requires { (self.now.n * 2 ≤ length blocked.old) × (self.now.n * 2 ≤ length spots.old) }
        ensures { Puts (in_site field_take self.now.site self.now.n self.now.field self.now.honoring)
            result spots.new spots.old }
    {
        let n = self.n;
        let nb = none_if(self.honoring, n);
        let t = gather_cells(
            self.field,
            self.site,
            n,
            nb,
            &mut spots[..],
            &mut blocked[..],
        );
        let more = (n - t.free).min(t.blocked);
        append(&mut spots[..], t.free, &blocked[..more * 2]);
        t.free + more
    }
}

// The spots of a field's lattice: at the least spacing where `n` cells are not there, else widened. `strict` is the mode's,
// and says whether blocked cells may be taken at all.
pub fn pack_field(
    field: Field,
    site: Site,
    n: usize,
    strict: bool,
    blocked: &mut [f64],
    spots: &mut [f64],
) -> usize
    requires { (0 < n) × (n * 2 ≤ length blocked.old) × (n * 2 ≤ length spots.old) }
    ensures { Puts (in_site field_pack site.entry n field strict) result spots.new spots.old }
{
    let mut tables = Tables::default();
    let at_min = count_with(field, site, n, &mut tables);
    let honoring = at_min.free >= n;
    if !honoring & strict {
        let strictly = Packing {
            field,
            site,
            n,
            honoring: true,
        };
        return strictly.take_cells(&mut blocked[..], &mut spots[..]);
    }
    let least = Packing {
        field,
        site,
        n,
        honoring,
    };
    if !is_enough(honoring, at_min, n) {
        return least.take_cells(&mut blocked[..], &mut spots[..]);
    }
    let widest = Packing {
        field: at_spacing(field, least.spread_spacing(&mut tables)),
        site,
        n,
        honoring,
    };
    widest.take_cells(&mut blocked[..], &mut spots[..])
}
