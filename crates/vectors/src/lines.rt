// A line: what was asked, and the answer.
use std::io;

// A number, in decimal.
pub fn number<R: Print>(rt: &R, asked: &str, answer: u64) -> io::Result<()> {
    println!(rt; "{asked} = {answer}")
}

// 64 bits, in hexadecimal.
pub fn bits<R: Print>(rt: &R, asked: &str, answer: u64) -> io::Result<()> {
    println!(rt; "{asked} = {answer:016x}")
}

// A float's bit pattern, or that it is a NaN.
pub fn float<R: Print>(rt: &R, asked: &str, answer: f64) -> io::Result<()> {
    if answer.is_nan() {
        println!(rt; "{asked} = NaN")
    } else {
        bits(rt, asked, answer.to_bits())
    }
}
