// Walking round a ring.
ghost use Rattle.std.specs.Prelude.{◌≡◌, ◌<◌};
ghost use Rattle.regions.specs.Ring.{next, prev};

// The vertex after vertex `i` of `n`.
pub fn after(n: usize, i: usize) -> usize
    requires { i < n }
    ensures { (result ≡ next n i) × (result < n) }
{
    let k = i + 1;
    if k < n {
        return k;
    }
    0
}

// The vertex before vertex `i` of `n`.
pub fn before(n: usize, i: usize) -> usize
    requires { i < n }
    ensures { (result ≡ prev n i) × (result < n) }
{
    if i == 0 {
        return n - 1;
    }
    i - 1
}
