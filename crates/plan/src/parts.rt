// Parts of slices, by where they start and how long they are.
ghost use Rattle.std.specs.Prelude.{◌≡◌, ◌+◌, ◌≤◌, length};
ghost use Rattle.discs.specs.Floor.{cut};

pub fn part<T>(l: &[T], at: usize, n: usize) -> &[T]
    requires { at + n ≤ length l.now }
    ensures { result.now ≡ cut at n l.now }
{
    &l.split_at(at).1[..n]
}
