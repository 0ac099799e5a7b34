// The whole numbers of rows and cells: an `i64` as its rank, how far it is above the least one.
ghost use Rattle.std.specs.Prelude.{◌≡◌, suc, ◌-◌, min};
ghost use Rattle.std.specs.Float.{binary64};
ghost use Rattle.std.specs.Float.Ieee.{of_int};
ghost use Rattle.float.specs.Whole.{floor, ceil, as_i64};
ghost use Rattle.lattice.specs.Span.{rank_of, of_rank};

fn rank(i: i64) -> u64
    ensures { result ≡ rank_of i }
{
    i.abs_diff(i64::MIN)
}

// `floor() as i64` and `ceil() as i64`, by rank.
pub fn floor_rank(x: f64) -> u64
    ensures { result ≡ rank_of (as_i64 (floor x)) }
{
    rank(float::floor_i64(x))
}

pub fn ceil_rank(x: f64) -> u64
    ensures { result ≡ rank_of (as_i64 (ceil x)) }
{
    rank(float::ceil_i64(x))
}

// The number of a rank.
fn signed(u: u64) -> i64
    ensures { result ≡ of_rank u }
{
    i64::MIN.wrapping_add_unsigned(u)
}

// The number of a rank, `as f64`.
pub fn number(u: u64) -> f64
    ensures { result ≡ of_int binary64 (of_rank u) }
{
    std::num::nearest_i64_to_f64(signed(u))
}

// How many numbers there are from `first` through `last`, and at most `left`. All 2^64 of them are one more than a `u64`
// has, and `left` is no more than it has.
pub fn many(first: u64, last: u64, left: usize) -> usize
    ensures { result ≡ min (suc last - first) left }
{
    if last < first {
        return 0;
    }
    (last - first).saturating_add(1).min(left as u64) as usize
}
