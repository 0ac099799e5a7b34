// What is wrong with a job or a lent slice.
ghost use Rattle.std.specs.Prelude.{◌≡◌};
ghost use Rattle.format.specs.Refusals.{number_of};

// The refusals of the call by their published numbers.
#[derive(Clone, Copy, Debug, PartialEq, Eq)]
pub enum Refusal {
    JobLength = 1,
    WorkLength = 2,
    Version = 3,
    HeadValue = 4,
    NumberAfterKind = 5,
    JobEnds = 6,
    BytesLeftOver = 7,
    Obstacle = 8,
    Count = 9,
    KeyByte = 10,
    KeyOrder = 11,
    MarkTotal = 12,
    Vertex = 13,
    SheetLength = 14,
    SearchRoom = 15,
    Ceiling = 16,
}

// The one place that gives a refusal its number.
impl From<Refusal> for u8 {
    ghost from_gives = { λ refusal number. number ≡ number_of refusal };

    fn from(refusal: Refusal) -> u8 {
        refusal as u8
    }
}
