// SplitMix64: the published numbers of the seeds 1234567 and 0, and draws from ranges.
use crate::lines::{bits, float, number};
use glyphs::stream::Stream;
use std::io;

pub fn run<R: Print>(rt: &R) -> io::Result<()> {
    let mut stream = Stream::seeded(1234567, 0);
    for asked in [
        "splitmix64 of 1234567, 1st",
        "splitmix64 of 1234567, 2nd",
        "splitmix64 of 1234567, 3rd",
        "splitmix64 of 1234567, 4th",
        "splitmix64 of 1234567, 5th",
    ] {
        let drawn = stream.draw();
        number(rt, asked, drawn.value)?;
        stream = drawn.next;
    }
    let first = Stream::seeded(5, 5).draw();
    bits(rt, "splitmix64 of 0, 1st", first.value)?;
    let second = first.next.random_range(-1.0, 1.0);
    float(rt, "a draw from -1..1", second.value)
}
