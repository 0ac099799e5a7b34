// glyphs.rs, `fnv1a`.
ghost use Rattle.std.specs.Prelude.{◌≡◌};
ghost use Rattle.glyphs.specs.Hash.{fnv1a, mix_byte};

fn mix_byte(hash: u64, b: u8) -> u64
    ensures { result ≡ mix_byte hash b }
{
    (hash ^ (b as u64)).wrapping_mul(0x100_0000_01b3)
}

pub fn fnv1a(bytes: &[u8]) -> u64
    ensures { result ≡ fnv1a bytes.now }
{
    let mut hash = 0xcbf2_9ce4_8422_2325u64;
    for b in bytes {
        hash = mix_byte(hash, *b);
    }
    hash
}
