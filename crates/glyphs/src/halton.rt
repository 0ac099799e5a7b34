// discs.rs, `radical_inverse`, for one index, and for many with the weights of the digits kept.
ghost use Rattle.std.specs.Prelude.{◌≡◌, ◌≤◌, length};
ghost use Rattle.glyphs.specs.Halton.{radical_inverse};
ghost use Rattle.glyphs.specs.Digits.{Weights};

pub fn radical_inverse(index: u64, base: u64) -> f64
    requires base_low { 2 ≤ base }
    requires base_high { base ≤ 65536 }
    ensures { result ≡ radical_inverse index base }
{
    let b = base as f64;
    let mut value = 0.0;
    let mut weight = 1.0 / b;
    let mut rest = index;
    // As the source divides: how many digits there are is known when none is left.
    while rest > 0 {
        value = value + ((rest % base) as f64) * weight;
        rest = rest / base;
        weight = weight / b;
    }
    value
}

// Writes the weights of the digits in a base.
pub fn put_weights(base: u64, weights: &mut [f64])
    requires base_low { 2 ≤ base }
    requires base_high { base ≤ 65536 }
    requires room { 64 ≤ length weights.old }
    ensures { Weights base weights.new }
{
    let b = base as f64;
    let mut weight = 1.0 / b;
    for j in 0..64 {
        weights[j] = weight;
        weight = weight / b;
    }
}

// `radical_inverse`, without a division of floats: an index has at most 64 digits. Their places are counted by hand: a `for`
// over the weights also tests at each digit whether they end, and low discrepancy is slower by it.
pub fn inverse_by(weights: &[f64], index: u64, base: u64) -> f64
    requires base_low { 2 ≤ base }
    requires base_high { base ≤ 65536 }
    requires room { 64 ≤ length weights.now }
    requires weights { Weights base weights.now }
    ensures { result ≡ radical_inverse index base }
{
    let mut value = 0.0;
    let mut rest = index;
    let mut j = 0;
    while rest > 0 {
        value = value + ((rest % base) as f64) * weights[j];
        rest = rest / base;
        j += 1;
    }
    value
}
