// The product of two `u64` in full.
ghost use Rattle.std.specs.Prelude.{◌≡◌, ◌*◌, ◌/◌, ◌^◌};

// The upper 64 bits.
pub fn high_mul(a: u64, b: u64) -> u64
    ensures { result ≡ (a * b) / 2 ^ 64 }
{
    ((a as u128 * b as u128) >> 64) as u64
}
