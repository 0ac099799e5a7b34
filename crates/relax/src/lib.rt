//! relax.rs: a scatter of marks evened out.
#![tactic(auto)]

pub mod distances;
pub mod field;
pub mod marks;
pub mod moves;
pub mod push;
pub mod sweeps;

// The numbers of relax.rs: sweeps; the reach of a neighbour's push, in spacings; the reach of the boundary's push,
// in insets, and its weight; the greatest step, in spacings; how often a refused step is halved.
#[derive(Clone, Copy)]
pub struct Spreading {
    pub sweeps: u32,
    pub influence: f64,
    pub boundary_influence: f64,
    pub boundary_weight: f64,
    pub max_step: f64,
    pub backtracks: u32,
}

impl Spreading {
    // The source's numbers.
    pub const SOURCE: Spreading = Spreading {
        sweeps: 8,
        influence: 1.5,
        boundary_influence: 2.0,
        boundary_weight: 0.75,
        max_step: 0.35,
        backtracks: 2,
    };
}
