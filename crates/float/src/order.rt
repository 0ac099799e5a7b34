// `f64`'s abs, min, max and clamp, and a change of sign. The kit's `min` and `max` leave open which of 0 and -0 they give,
// its `clamp` asks for bounds in order, and its `abs` tests twice.
ghost use Rattle.std.specs.Prelude.{◌≡◌, ◌^◌, if◌then◌else◌};
ghost use Rattle.std.specs.Float.Ieee.{neg};
ghost use Rattle.float.specs.Order.{abs, min, max, clamp};

// `f64::abs`.
pub fn abs(x: f64) -> f64
    ensures { result ≡ abs x }
{
    if x.is_nan() {
        x
    } else {
        f64::from_bits(f64::to_bits(x) % 0x8000_0000_0000_0000)
    }
}

// The sign's bit of a pattern, unless `keep` is set.
fn sign_bit(keep: bool) -> u64
    ensures { result ≡ (if keep then 0 else 2 ^ 63) }
{
    if keep { 0 } else { 0x8000_0000_0000_0000 }
}

// `-x`, unless `keep` is set. There is no branch on `keep`.
pub fn negate_unless(x: f64, keep: bool) -> f64
    ensures { result ≡ (if keep then x else neg x) }
{
    if x.is_nan() {
        x
    } else {
        let bits = f64::to_bits(x);
        f64::from_bits(bits.wrapping_add(sign_bit(keep)))
    }
}

// `f64::min`.
pub fn min(a: f64, b: f64) -> f64
    ensures { result ≡ min a b }
{
    if a.is_nan() {
        b
    } else if b < a {
        b
    } else {
        a
    }
}

// `f64::max`.
pub fn max(a: f64, b: f64) -> f64
    ensures { result ≡ max a b }
{
    if a.is_nan() {
        b
    } else if a < b {
        b
    } else {
        a
    }
}

// `f64::clamp`.
pub fn clamp(x: f64, low: f64, high: f64) -> f64
    ensures { result ≡ clamp x low high }
{
    if x < low {
        low
    } else if high < x {
        high
    } else {
        x
    }
}
