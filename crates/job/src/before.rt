// What came before a zone.
ghost use Rattle.std.specs.Prelude.{◌≤◌};

// The last key, and the marks so far.
#[derive(Clone, Copy)]
pub struct Before<'a> {
    pub key: &'a [u8],
    pub marks: usize,
    pub ghost few: { marks ≤ 2000 },
}
