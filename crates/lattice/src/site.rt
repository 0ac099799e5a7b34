// discs.rs, `lattice_valid_cells`: what the places of a lattice are judged by.
use glyphs::rect::Rectangle;
use regions::margin::Margin;
use regions::piece::RegionPiece;

// The piece that places are to lie in, the clearance that they are to keep, and the obstacles near the piece.
#[derive(Clone, Copy)]
pub struct Site<'a> {
    pub piece: RegionPiece<'a>,
    pub margin: Margin,
    pub near: &'a [Rectangle],
}
