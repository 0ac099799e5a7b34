// discs.rs, `PackCtx`, without its obstacles, and `Lattice`.
ghost use Rattle.std.specs.Prelude.{◌≡◌};
ghost use Rattle.lattice.specs.Context.{inset, spacing};

use glyphs::mode::PackMode;

// What a packer packs at: the radius, the gaps as parts of it, and the mode. The source's has the obstacles, too: here the
// definitions compute with this struct, and a lent slice would bring a reference into each.
#[derive(Clone, Copy)]
pub struct PackCtx {
    pub r: f64,
    pub gap: f64,
    pub boundary_gap: f64,
    pub mode: PackMode,
}

impl PackCtx {
    // The clearance that a mark keeps from rings and obstacles.
    pub fn inset(self) -> f64
        ensures { result ≡ inset self }
    {
        self.r * (1.0 + self.boundary_gap)
    }

    // The least distance of two marks.
    pub fn spacing(self) -> f64
        ensures { result ≡ spacing self }
    {
        2.0 * self.r * (1.0 + self.gap)
    }
}

// The lattice's spacing, and whether its rows are aligned: data that a row's height and offset follow from.
#[derive(Clone, Copy)]
pub struct Lattice {
    pub spacing: f64,
    pub rectangular: bool,
}
