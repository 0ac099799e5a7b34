// The work slices after the call.
ghost use Rattle.std.specs.Prelude.{◌≡◌, replicate};
ghost use Rattle.float.specs.Ops.{0ᶠ};

// Sets all 8,000 to +0.
pub fn clear(work: &mut [f64; 8000])
    ensures { work.new ≡ replicate 8000 0ᶠ }
{
    work.fill(0.0);
}
