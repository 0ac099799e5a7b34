// The IEEE 754 square root without the machine's own, which the kit's `f64::sqrt` is, and on whose word its values stand: here
// each is proved. A guess in floats is tested exactly in whole numbers, and the digits are found one at a time where the test
// fails.
ghost use Rattle.std.specs.Prelude.{◌≡◌, ◌+◌, ◌-◌, ◌*◌, ◌^◌, ◌<◌, ◌≤◌, T, from_bits, map};
ghost use Rattle.std.specs.Float.{binary64};
ghost use Rattle.float.specs.Root.{Near, nearest_root, root_of};
ghost use Rattle.float.specs.Order.{sqrt, hypot};
ghost use Rattle.float.specs.Laws.Pattern.{Normal};

use crate::wide::high_mul;

// The whole number nearest to √(m * 2^52), digit by digit. With y for m * 2^52, at each turn q is the root's
// digits down to the bit `bit`, and what is left of y is y - q * q, kept as `rest` * `bit`. A turn tries the
// next bit: (q + bit)^2 is q^2 + (2q + bit) * bit. `bit` is what a turn is about, and a count
// of the 52 turns beside it would say nothing.
fn digit_root(m: u64) -> u64
    requires low { 2 ^ 52 ≤ m }
    requires high { m < 2 ^ 54 }
    ensures { Near (m * 2 ^ 52) result }
{
    let mut q = 0x10_0000_0000_0000u64;
    let mut bit = 0x10_0000_0000_0000u64;
    let mut rest = m - 0x10_0000_0000_0000;
    while bit > 1 {
        bit = bit / 2;
        rest = rest * 2;
        let trial = q * 2 + bit;
        if trial <= rest {
            rest = rest - trial;
            q = q + bit;
        }
    }
    if rest > q { q + 1 } else { q }
}

// A guess at √x for a normal x above zero: 1 / √x from its bit pattern, as in the fast inverse square root of Quake III
// Arena, and two steps of Newton's method, with the numbers that leave the least error, give d, to 21 digits. Then s
// is x * d to some 22 digits, cut by adding and taking away some 2^31 * √x, so that `rest`, what x has above s * s, is
// exact, and rest / (s + √x), worked out by d and `rest`, is what s lacks. Nothing is proved of the guess: `is_root`
// tests it. For an x below 2^1023 it is the root but for some 3 in 10,000.
fn root_guess(x: f64) -> f64
    requires { Normal x }
{
    let pattern = f64::to_bits(x);
    let a = f64::from_bits(0x5fdc_0350_c7b5_37a9 - pattern / 2);
    let b = 2.3772155016748284 * a - 1.9876450036639726 * x * a * (a * a);
    let d = 1.5000003679429867 * b - 0.5000000525632304 * x * b * (b * b);
    let q = x * d;
    let h = 0.5 * d;
    let g = h + 0.5 * h * (1.0 - q * d);
    let far = f64::from_bits(pattern / 2 + 0x21e7_a3be_a91d_9b1b);
    let s = (q + far) - far;
    let rest = x - s * s;
    let lack = rest * g;
    s + (lack + lack * (rest * (h * h)))
}

// Whether r is seen to be the whole number nearest to √(m * 2^52). `rest` is (m + 2) * 2^52 - r * r where `high` and the
// borrow are the upper half of (m + 2) * 2^52: the nearest is r where that is 2^53, give or take r.
fn is_nearest(m: u64, r: u64) -> bool
    requires digits { m < 2 ^ 54 }
    requires root { r < 2 ^ 54 }
    ensures { T result → Near (m * 2 ^ 52) r }
{
    let top = m + 2;
    let high = high_mul(r, r);
    let low = r.wrapping_mul(r);
    let lower = top % 0x1000 * 0x10_0000_0000_0000;
    let rest = std::num::wrapping_sub_u64(lower, low);
    if high + (lower < low) as u64 != top / 0x1000 {
        return false;
    }
    if rest > r + 0x20_0000_0000_0000 {
        return false;
    }
    rest + r > 0x20_0000_0000_0000
}

// The `f64` nearest to √n of the least `f64`, 2^-1074, where n is m * 2^52 * 2^g: m has 53 digits, and the last
// bit of g, where it is set, is moved into m, so that the root is √(m * 2^52) * 2^(g / 2). A pattern's fields are
// the digits and, from bit 52 on, how far they are moved. The digits are found one at a time.
fn scaled_root(m: u64, g: u64) -> f64
    requires low { 2 ^ 52 ≤ m }
    requires high { m < 2 ^ 53 }
    requires places { g < 3068 }
    ensures { result ≡ nearest_root binary64 (m * 2 ^ 52 * 2 ^ g) }
{
    f64::from_bits(g / 2 * 0x10_0000_0000_0000 + digit_root(m << (g % 2)))
}

// Whether a float with this pattern is seen to be that `f64`: its digits are the nearest.
fn is_scaled_root(m: u64, g: u64, pattern: u64) -> bool
    requires low { 2 ^ 52 ≤ m }
    requires high { m < 2 ^ 53 }
    requires places { g < 3068 }
    ensures { T result → from_bits binary64 pattern ≡ nearest_root binary64 (m * 2 ^ 52 * 2 ^ g) }
{
    let field = g / 2 * 0x10_0000_0000_0000;
    if pattern < field {
        return false;
    }
    let r = pattern - field;
    if r >= 0x40_0000_0000_0000 {
        return false;
    }
    is_nearest(m << (g % 2), r)
}

// Whether a guess is seen to be the root of a normal x above zero. What waits for the root can go on from the guess, and
// does not wait for this.
fn is_root(x: f64, guess: f64) -> bool
    requires { Normal x }
    ensures { T result → guess ≡ sqrt x }
{
    if guess > 0.0 {
        let bits = f64::to_bits(x);
        return is_scaled_root(
            bits % 0x10_0000_0000_0000 + 0x10_0000_0000_0000,
            bits / 0x10_0000_0000_0000 + 1021,
            f64::to_bits(guess),
        );
    }
    false
}

// Whether x is above zero, and neither subnormal nor infinite.
fn is_normal(x: f64) -> bool
    ensures { T result → Normal x }
{
    if x > 0.0 {
        let bits = f64::to_bits(x);
        return (bits >= 0x10_0000_0000_0000) & (bits < 0x7ff0_0000_0000_0000);
    }
    false
}

// The root of a finite x above zero from its bit pattern, its digits found one at a time. A pattern below 2^52 is a
// subnormal x: its digits are moved up until they are 53.
fn root_of(bits: u64) -> f64
    requires above_zero { 0 < bits }
    requires finite { bits < 0x7ff0_0000_0000_0000 }
    ensures { result ≡ root_of binary64 (from_bits binary64 bits) }
{
    if bits < 0x10_0000_0000_0000 {
        let z = u64::leading_zeros(bits) - 11;
        return scaled_root(bits << z, (1022 - z) as u64);
    }
    scaled_root(
        bits % 0x10_0000_0000_0000 + 0x10_0000_0000_0000,
        bits / 0x10_0000_0000_0000 + 1021,
    )
}

// `root` with nothing guessed.
fn unguessed_root(x: f64) -> f64
    ensures { result ≡ sqrt x }
{
    if x > 0.0 {
        let bits = f64::to_bits(x);
        if bits < 0x7ff0_0000_0000_0000 {
            root_of(bits)
        } else {
            x
        }
    } else if x == 0.0 {
        x
    } else {
        0.0 / 0.0
    }
}

// `f64::sqrt`: the nearest `f64`, a NaN below zero and at a NaN, and a zero or the infinity itself.
pub fn root(x: f64) -> f64
    ensures { result ≡ sqrt x }
{
    if is_normal(x) {
        let guess = root_guess(x);
        if is_root(x, guess) {
            return guess;
        }
    }
    unguessed_root(x)
}

// `f64::hypot`: the root of the sum of squares, each step rounded once.
pub fn hypot(a: f64, b: f64) -> f64
    ensures { result ≡ hypot a b }
{
    root(a * a + b * b)
}

// The roots of some floats. The guesses at them are worked out side by side.
pub fn each_root<const N: usize>(xs: [f64; N]) -> [f64; N]
    ensures { result ≡ map sqrt xs.entry }
{
    let mut found = [0.0; N];
    let mut normal = true;
    for i in 0..N {
        normal = normal & is_normal(xs[i]);
    }
    if normal {
        for i in 0..N {
            found[i] = root_guess(xs[i]);
        }
        let mut sure = true;
        for i in 0..N {
            sure = sure & is_root(xs[i], found[i]);
        }
        if sure {
            return found;
        }
    }
    for i in 0..N {
        found[i] = root(xs[i]);
    }
    found
}
