// Numbers of a job: big-endian, some of them counted in 1/1024.
ghost use Rattle.std.specs.Prelude.{◌≡◌, ◌^◌, ◌<◌, ◌≤◌, length};
ghost use Rattle.format.specs.Numbers.{uint, share};

// The number that the bytes stand for: at most eight, which end a word.
pub fn uint(bytes: &[u8]) -> u64
    requires { length bytes.now ≤ 8 }
    ensures { (result ≡ uint (length bytes.now) bytes.now 0) × (result < 256 ^ length bytes.now) }
{
    let mut word = [0; 8];
    word[8 - bytes.len()..].copy_from_slice(bytes);
    u64::from_be_bytes(word)
}

// A number of 1/1024.
pub fn share(n: u32) -> f64
    ensures { result ≡ share n }
{
    n as f64 / 1024.0
}
