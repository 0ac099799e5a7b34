// `f64`'s floor and ceil, and the casts to integers, saturating and 0 for a NaN.
ghost use Rattle.std.specs.Prelude.{◌≡◌, false, T, pos};
ghost use Rattle.std.specs.Float.{fin};
ghost use Rattle.std.specs.Float.Ieee.{lt};
ghost use Rattle.float.specs.Whole.{floor, ceil, as_i64, as_usize};

// The least whole number at least x, for an x that is above zero and below 2^53.
fn whole_above(x: f64) -> u64
    requires above_zero { T (lt (fin false 0 (pos 0)) x) }
    requires small { T (lt x (fin false 1 (pos 53))) }
    ensures { result ≡ as_usize (ceil x) }
{
    let n = std::num::truncating_f64_to_u64(x);
    n + ((n as f64) < x) as u64
}

// `f64::floor`. The kit's takes the same whatever x is, and quotas of small shares twice as long by it.
pub fn floor(x: f64) -> f64
    ensures { result ≡ floor x }
{
    if x > 0.0 {
        if x < 9007199254740992.0 {
            std::num::truncating_f64_to_u64(x) as f64
        } else {
            x
        }
    } else if x < 0.0 {
        if x > -9007199254740992.0 {
            -(whole_above(-x) as f64)
        } else {
            x
        }
    } else {
        x
    }
}

// `as i64`, by range tests and a cut: its ends stand here, where an edit of one is refused.
pub fn as_i64(x: f64) -> i64
    ensures { result ≡ as_i64 x }
{
    if x >= -9223372036854775808.0 {
        if x < 9223372036854775808.0 {
            std::num::truncating_f64_to_i64(x)
        } else {
            i64::MAX
        }
    } else if x < 0.0 {
        i64::MIN
    } else {
        0
    }
}

// `floor() as i64`. Only below zero does it differ from `as i64`, and not from -2^53 down. The kit's floor and then the cast
// take twice as long.
pub fn floor_i64(x: f64) -> i64
    ensures { result ≡ as_i64 (floor x) }
{
    if x < 0.0 {
        if x > -9007199254740992.0 {
            return 0 - (whole_above(-x) as i64);
        }
    }
    as_i64(x)
}

// `ceil() as i64`. Only above zero does it differ from `as i64`, and not from 2^53 up. The kit's ceil and then the cast
// take nearly twice as long.
pub fn ceil_i64(x: f64) -> i64
    ensures { result ≡ as_i64 (ceil x) }
{
    if x > 0.0 {
        if x < 9007199254740992.0 {
            return whole_above(x) as i64;
        }
    }
    as_i64(x)
}

// `as usize`. The kit's takes half as long again below zero.
pub fn as_usize(x: f64) -> usize
    ensures { result ≡ as_usize x }
{
    if x > -1.0 {
        if x < 18446744073709551616.0 {
            std::num::truncating_f64_to_u64(x) as usize
        } else {
            usize::MAX
        }
    } else {
        0
    }
}
