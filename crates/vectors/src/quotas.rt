// Quotas.
use crate::lines::number;
use std::io;

// The quotas of a count over three weights, in four places of which the last stays 7, or the refusal.
fn three<R: Print>(rt: &R, asked: &str, count: u64, weights: [f64; 3]) -> io::Result<()> {
    let mut quotas = [7u64; 4];
    match marks::leaves::quotas(count, &weights, &mut quotas) {
        Ok(()) => {
            for quota in quotas {
                number(rt, asked, quota)?;
            }
            Ok(())
        }
        Err(refusal) => number(rt, asked, u64::from(u8::from(refusal))),
    }
}

pub fn run<R: Print>(rt: &R) -> io::Result<()> {
    three(rt, "5 over 1, 1, 1", 5, [1.0, 1.0, 1.0])?;
    three(rt, "3 over 0, 0, 0", 3, [0.0, 0.0, 0.0])?;
    three(rt, "4 over infinity, 1, 1", 4, [f64::INFINITY, 1.0, 1.0])?;
    three(rt, "2 over NaN, 1, 1", 2, [f64::NAN, 1.0, 1.0])?;
    three(rt, "7 over -0, 1, 3", 7, [-0.0, 1.0, 3.0])?;
    three(rt, "7 over 1, -1, 3", 7, [1.0, -1.0, 3.0])?;
    three(rt, "2,000 over 1, 1e300, 1", 2000, [1.0, 1e300, 1.0])?;
    three(rt, "2,001 over 1, 1, 1", 2001, [1.0, 1.0, 1.0])
}
