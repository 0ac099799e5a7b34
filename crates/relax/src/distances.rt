// relax.rs, `Field`: the distances of it.
ghost use Rattle.std.specs.Prelude.{◌≡◌};
ghost use Rattle.relax.specs.Field.{field_of};

use crate::Spreading;
use regions::margin::Margin;

// The distances that marks keep, and the margins and the reaches made of them.
#[derive(Clone, Copy)]
pub struct Distances {
    pub spacing: f64,
    pub inset: f64,
    pub margin: Margin,
    pub influence: f64,
    pub boundary_reach: f64,
    pub reach: Margin,
    pub boundary_weight: f64,
    pub probe: f64,
}

impl Distances {
    #[tactic(auto, unfolding(crate::specs::Field::field_of))]
    pub fn of(numbers: Spreading, spacing: f64, inset: f64) -> Distances
        ensures { result ≡ field_of numbers spacing inset }
    {
        let margin = Margin::of(inset);
        let boundary_reach = numbers.boundary_influence * inset;
        let reach = Margin::of(boundary_reach);
        Distances {
            spacing,
            inset,
            margin,
            influence: numbers.influence * spacing,
            boundary_reach,
            reach,
            boundary_weight: numbers.boundary_weight,
            probe: 0.25 * inset,
        }
    }
}
