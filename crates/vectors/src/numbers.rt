// Roots and radical inverses.
use crate::lines::{float, number};
use std::io;

fn root<R: Print>(rt: &R, asked: &str, x: f64) -> io::Result<()> {
    float(rt, asked, marks::leaves::root(x))
}

fn inverse<R: Print>(rt: &R, asked: &str, index: u64, base: u64) -> io::Result<()> {
    match marks::leaves::radical_inverse(index, base) {
        Ok(value) => float(rt, asked, value),
        Err(refusal) => number(rt, asked, u64::from(u8::from(refusal))),
    }
}

fn roots<R: Print>(rt: &R) -> io::Result<()> {
    root(rt, "root of 0.25", 0.25)?;
    root(rt, "root of -0", -0.0)?;
    root(rt, "root of 2", 2.0)?;
    root(rt, "root of -1", -1.0)?;
    root(rt, "root of infinity", f64::INFINITY)?;
    root(rt, "root of NaN", f64::NAN)?;
    root(rt, "root of the least", f64::from_bits(1))?;
    root(rt, "root of the greatest", f64::MAX)?;
    root(
        rt,
        "root of the least below 1",
        f64::from_bits(0x3fef_ffff_ffff_ffff),
    )
}

fn inverses<R: Print>(rt: &R) -> io::Result<()> {
    inverse(rt, "inverse of 0 in base 2", 0, 2)?;
    inverse(rt, "inverse of 6 in base 2", 6, 2)?;
    inverse(rt, "inverse of 5 in base 3", 5, 3)?;
    inverse(rt, "inverse of 6 in base 1", 6, 1)?;
    inverse(rt, "inverse of 1 in base 65,536", 1, 65536)?;
    inverse(rt, "inverse of 1 in base 65,537", 1, 65537)?;
    inverse(rt, "inverse of the greatest in base 2", u64::MAX, 2)
}

pub fn run<R: Print>(rt: &R) -> io::Result<()> {
    roots(rt)?;
    inverses(rt)
}
