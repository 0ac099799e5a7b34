// glyphs.rs, `apportion`: a count over weights by largest remainder. The quotas are found one by one: the
// source's sorted order is asked only how many indices come before one.
ghost use Rattle.std.specs.Prelude.{◌≡◌, ◌^◌, ◌<◌, ◌≤◌, length, slice_index_or};
ghost use Rattle.std.specs.Float.{nan};
ghost use Rattle.laws.specs.Lists.{up_to, written};
ghost use Rattle.laws.specs.Sorted.{rank};
ghost use Rattle.laws.specs.Orders.{is_lt};
ghost use Rattle.float.specs.Total.{total_key};
ghost use Rattle.glyphs.specs.Apportion.{total, no_weight, share, whole_share, remainder, rems, by_remainder, apportion};
ghost use Rattle.glyphs.specs.Quotas.{quota_of, left_over};

fn total(weights: &[f64]) -> f64
    ensures { result ≡ total weights.now }
{
    weights.iter().sum()
}

fn no_weight(total: f64) -> bool
    ensures { result ≡ no_weight total }
{
    total.is_nan() | (total <= 0.0)
}

// A count that is shared out by weights, with their total. The count is exact as a float.
#[derive(Clone, Copy)]
struct Shares<'a> {
    n: u64,
    total: f64,
    weights: &'a [f64],
    ghost exact: { n ≤ 2 ^ 53 },
}

impl<'a> Shares<'a> {
    fn share(&self, w: f64) -> f64
        ensures { result ≡ share self.now.n self.now.total w }
    {
        (self.n as f64) * float::max(w / self.total, 0.0)
    }

    fn whole_share(&self, w: f64) -> u64
        ensures { result ≡ whole_share self.now.n self.now.total w }
    {
        float::as_usize(float::floor(self.share(w))) as u64
    }

    // The remainder's key in the total order.
    fn remainder_key(&self, w: f64) -> u64
        ensures { result ≡ total_key (remainder self.now.n self.now.total w) }
    {
        let s = self.share(w);
        float::total_key(s - float::floor(s))
    }

    // Whether index j comes before index i, whose remainder's key is `a`. The source's order has a place for NaN, so keys are
    // compared and not floats.
    fn before(&self, j: usize, i: usize, a: u64) -> bool
        requires inside_j { j < length self.now.weights.now }
        requires inside_i { i < length self.now.weights.now }
        requires key { a ≡ total_key (remainder self.now.n self.now.total (slice_index_or self.now.weights.now i nan)) }
        ensures { result ≡ is_lt (by_remainder (rems self.now.n self.now.total self.now.weights.now) j i) }
    {
        let b = self.remainder_key(self.weights[j]);
        (a, j) < (b, i)
    }

    // How many indices come before index i. Its key is worked out once: each takes a division.
    fn rank_of(&self, i: usize) -> u64
        requires { i < length self.now.weights.now }
        ensures { result ≡ rank (by_remainder (rems self.now.n self.now.total self.now.weights.now)) i (up_to (length self.now.weights.now)) }
    {
        let a = self.remainder_key(self.weights[i]);
        (0..self.weights.len())
            .filter(|j| self.before(*j, i, a))
            .count() as u64
    }

    // What the floors leave of n.
    fn left_over(&self) -> u64
        ensures { result ≡ left_over self.now.n self.now.total self.now.weights.now }
    {
        self.weights.iter().fold(
            self.n,
            |left, weight| left.saturating_sub(self.whole_share(*weight)),
        )
    }

    // The quota of piece i.
    fn quota_of(&self, left: u64, i: usize) -> u64
        requires inside { i < length self.now.weights.now }
        requires left_over { left ≡ left_over self.now.n self.now.total self.now.weights.now }
        ensures { result ≡ quota_of self.now.n self.now.total left self.now.weights.now i }
    {
        if no_weight(self.total) {
            return if i == 0 { self.n } else { 0 };
        }
        let whole = self.whole_share(self.weights[i]);
        if self.rank_of(i) < left {
            return whole + 1;
        }
        whole
    }
}

pub fn apportion(n: u64, weights: &[f64], quotas: &mut [u64])
    requires exact { n ≤ 2 ^ 53 }
    requires room { length weights.now ≤ length quotas.old }
    ensures { quotas.new ≡ written (apportion n weights.now) quotas.old }
{
    let shares = Shares {
        n,
        total: total(weights),
        weights,
    };
    let left = shares.left_over();
    for i in 0..weights.len() {
        quotas[i] = shares.quota_of(left, i);
    }
}
