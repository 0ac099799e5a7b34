// glyphs.rs, `GlyphArrangement` and `ObstaclePolicy`.

#[derive(Clone, Copy)]
pub enum GlyphArrangement {
    Uniform,
    Rectangular,
    LowDiscrepancy,
    Random,
}

#[derive(Clone, Copy)]
pub enum ObstaclePolicy {
    BestEffort,
    Strict,
}
