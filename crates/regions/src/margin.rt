// A clearance to keep, with the squares that tell of a root without taking it.
ghost use Rattle.std.specs.Prelude.{◌≡◌};
ghost use Rattle.regions.specs.Margin.{low_square, high_square};

// A square below `low` has a root below `least`, one from `high` on has a root of at least `least`; where that could not
// be made sure of, the square is one with which the comparison fails.
#[derive(Clone, Copy)]
pub struct Margin {
    pub least: f64,
    pub low: f64,
    pub high: f64,
    pub ghost low_is: { low ≡ low_square least },
    pub ghost high_is: { high ≡ high_square least },
}

fn low_square(c: f64) -> f64
    ensures { result ≡ low_square c }
{
    let square = c * c * 0.9999;
    if float::root(square) < c {
        return square;
    }
    0.0
}

fn high_square(c: f64) -> f64
    ensures { result ≡ high_square c }
{
    let square = c * c * 1.0001;
    if c <= float::root(square) {
        return square;
    }
    0.0 / 0.0
}

impl Margin {
    ghost use Rattle.std.specs.Prelude.{◌≡◌};
    ghost use Rattle.float.specs.Ops.{◌≤ᶠ◌};
    ghost use Rattle.float.specs.Order.{sqrt};
    ghost use Rattle.regions.specs.Margins.{margin_of};

    pub fn of(c: f64) -> Margin
        ensures { result ≡ margin_of c }
    {
        let low = low_square(c);
        let high = high_square(c);
        Margin {
            least: c,
            low,
            high,
        }
    }

    // Whether the root of a square is at least the clearance: a root is taken only between the margin's squares.
    pub fn root_at_least(self, square: f64) -> bool
        ensures { result ≡ (self.least ≤ᶠ sqrt square) }
    {
        if square >= self.high {
            return true;
        }
        if square < self.low {
            return false;
        }
        self.least <= float::root(square)
    }
}
