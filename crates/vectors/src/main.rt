//! Published vectors, worked cases and edge cases of the entries, written out to be compared with stdout.
#![tactic(auto)]

mod hash;
mod lines;
mod numbers;
mod quotas;
mod stream;

use std::io;

fn main(rt: HostRuntime) -> io::Result<()> {
    hash::run(&rt)?;
    stream::run(&rt)?;
    numbers::run(&rt)?;
    quotas::run(&rt)
}
