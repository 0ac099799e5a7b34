// Numbers and floats written as bytes. Numbers are big-endian.
ghost use Rattle.std.specs.Prelude.{◌≡◌, ◌+◌, ◌<◌, ◌≤◌, length};
ghost use Rattle.std.proofs.lemmas.List.Edits.{sets};
ghost use Rattle.format.specs.Numbers.{bytes, float_bytes};

// Puts the `n` low bytes of `v` into `out` at `at`. There may be any number of them, and a word has but eight.
pub fn put_uint(out: &mut [u8], at: usize, n: usize, v: u64)
    requires { at + n ≤ length out.old }
    ensures { out.new ≡ sets out.old at (bytes n v) }
{
    let mut rest = v;
    for i in (0..n).rev() {
        out[at + i] = (rest % 256) as u8;
        rest /= 256;
    }
}

// Puts the 64 bits of `x` into `out` at `at`.
pub fn put_float(out: &mut [u8], at: usize, x: f64)
    requires { at + 8 ≤ length out.old }
    ensures { out.new ≡ sets out.old at (float_bytes x) }
{
    let bits = if x.is_nan() {
        0x7ff8_0000_0000_0000
    } else {
        x.to_bits()
    };
    out[at..at + 8].copy_from_slice(&bits.to_be_bytes());
}
