// The memory of a call, beside the lent slices.
use arrayvec::ArrayVec;
use deepest::search::Deepest;
use discs::rows::Row;
use format::pieces::JobPieces;
use glyphs::rect::Rectangle;

// The quotas and the deepest points of a job's pieces, the obstacles that are not dropped, and what the packers use. Quotas and
// points stay two arrays: the points are found with the quotas lent to read, so that the types say that these stay as they
// are, for which each function of the search would need a clause with an array of both. The ceiling reads the points alone.
#[derive(Drop)]
pub struct Scratch {
    pub quotas: [usize; 1024],
    pub deepest: [Deepest; 1024],
    pub pillars: ArrayVec<Rectangle, 64>,
    pub near: [Rectangle; 64],
    pub flags: [bool; 2000],
}

// What the reader fills, and what is found after it.
#[derive(Drop)]
pub struct Memory {
    pub obstacles: ArrayVec<Rectangle, 64>,
    pub pieces: JobPieces,
    pub rows: ArrayVec<Row, 64>,
    pub scratch: Scratch,
}
