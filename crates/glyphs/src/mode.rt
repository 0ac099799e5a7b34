// glyphs.rs, `PackMode`.

// How a pack treats spacing and obstacles, as the source has it.
#[derive(Clone, Copy)]
pub struct PackMode {
    // Spread the marks across the piece once they all fit.
    pub spread: bool,
    // Refuse blocked positions outright.
    pub strict_obstacles: bool,
}

impl PackMode {
    // A trial packing: the least spacing, and obstacles as walls.
    pub const PROBE: PackMode = PackMode {
        spread: false,
        strict_obstacles: true,
    };

    // The final packing: spread, and obstacles as a preference.
    pub const PACK: PackMode = PackMode {
        spread: true,
        strict_obstacles: false,
    };
}
