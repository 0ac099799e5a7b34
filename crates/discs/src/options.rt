// discs.rs, `GlyphOptions`, without its obstacles.
use glyphs::options::{GlyphArrangement, ObstaclePolicy};

// The radius: chosen by the packer, or stated. The customer names this form.
#[derive(Clone, Copy)]
pub enum Radius {
    Auto,
    Stated(f64),
}

// The gap to walls and pillars is the one between marks where it has none of its own.
#[derive(Clone, Copy)]
pub struct GlyphOptions {
    pub arrangement: GlyphArrangement,
    pub radius: Radius,
    pub gap: f64,
    pub boundary_gap: Option<f64>,
    pub seed: u64,
    pub precision: f64,
    pub max_attempts: u32,
    pub obstacle_policy: ObstaclePolicy,
}
