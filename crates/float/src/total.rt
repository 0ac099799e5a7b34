// `f64::total_cmp`, by keys. The kit's takes no NaN.
ghost use Rattle.std.specs.Prelude.{◌≡◌};
ghost use Rattle.float.specs.Total.{total_key, total_less};

// The key by which `f64::total_cmp` orders.
pub fn total_key(x: f64) -> u64
    ensures { result ≡ total_key x }
{
    if x.is_nan() {
        0xfff8_0000_0000_0000
    } else {
        let bits = f64::to_bits(x);
        if bits >= 0x8000_0000_0000_0000 {
            0xffff_ffff_ffff_ffff - bits
        } else {
            0x8000_0000_0000_0000 + bits
        }
    }
}

// Whether `f64::total_cmp` puts a before b.
pub fn total_less(a: f64, b: f64) -> bool
    ensures { result ≡ total_less a b }
{
    total_key(a) < total_key(b)
}
