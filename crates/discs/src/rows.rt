// The rows of a job's zones, and where the pieces of each start.
ghost use Rattle.std.specs.Prelude.{◌≡◌};
ghost use Rattle.discs.specs.Floor.{row_is_left_in};

// Of a zone: where its key starts in the job's bytes, how long that is, its mark count, its piece count. The key is no slice:
// it would bring a reference into each definition that speaks of rows, and the job's lifetime into all memory that holds them.
#[derive(Clone, Copy, Default)]
pub struct Row {
    pub key: usize,
    pub len: usize,
    pub count: usize,
    pub pieces: usize,
}

// Whether a zone is left in: it has marks and pieces.
pub fn is_left_in(row: Row) -> bool
    ensures { result ≡ row_is_left_in row }
{
    (0 < row.count) & (0 < row.pieces)
}

// Where a zone's pieces, their rings and points start.
#[derive(Clone, Copy)]
pub struct Offsets {
    pub piece: usize,
    pub ring: usize,
    pub point: usize,
}

impl Offsets {
    pub const START: Offsets = Offsets {
        piece: 0,
        ring: 0,
        point: 0,
    };
}

// A zone's row, and where its pieces start.
#[derive(Clone, Copy)]
pub struct ZoneAt {
    pub row: Row,
    pub at: Offsets,
}
