// Root, hash, radical inverse and quotas.
ghost use Rattle.std.specs.Prelude.{◌≡◌, length};
ghost use Rattle.float.specs.Order.{sqrt};
ghost use Rattle.glyphs.specs.Hash.{fnv1a};
ghost use Rattle.marks.specs.Leaves.{number_of, inverse_answer, any_below, quotas_answer, quotas_after};

// The refusals of the radical inverse and the quotas by their published numbers.
#[derive(Clone, Copy, Debug, PartialEq, Eq)]
pub enum Refusal {
    // a base outside 2..65,536
    Base = 17,
    // a count over 2,000, over 16 weights or a weight below 0
    Shares = 18,
    // too few places for the quotas
    Places = 19,
}

impl From<Refusal> for u8 {
    ghost from_gives = { λ refusal number. number ≡ number_of refusal };

    fn from(refusal: Refusal) -> u8 {
        refusal as u8
    }
}

pub fn root(x: f64) -> f64
    ensures { result ≡ sqrt x }
{
    float::root(x)
}

pub fn hash(bytes: &[u8]) -> u64
    ensures { result ≡ fnv1a bytes.now }
{
    glyphs::hash::fnv1a(bytes)
}

pub fn radical_inverse(index: u64, base: u64) -> Result<f64, Refusal>
    ensures { result ≡ inverse_answer index base }
{
    if !(2..=65536).contains(&base) {
        return Err(Refusal::Base);
    }
    Ok(glyphs::halton::radical_inverse(index, base))
}

// Whether a weight is below 0.
fn any_below(weights: &[f64]) -> bool
    ensures { result ≡ any_below weights.now }
{
    weights.iter().any(|weight| *weight < 0.0)
}

pub fn quotas(count: u64, weights: &[f64], quotas: &mut [u64]) -> Result<(), Refusal>
    ensures answer { result ≡ quotas_answer count weights.now (length quotas.old) }
    ensures lent { quotas.new ≡ quotas_after count weights.now quotas.old }
{
    let too_many = count > 2000;
    if too_many || weights.len() > 16 || any_below(weights) {
        return Err(Refusal::Shares);
    }
    if quotas.len() < weights.len() {
        return Err(Refusal::Places);
    }
    glyphs::quotas::apportion(count, weights, quotas);
    Ok(())
}
