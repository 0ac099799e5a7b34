//! The job program: a job from standard input, its sheet or its refusal to standard output.
#![tactic(auto)]

ghost use Rattle.std.specs.Prelude.{◌≤◌, length, IfOk};

use marks::call::Refusal;
use std::io::{self, Read, Write};

// The line of a refusal: a fixed byte string, handed to the output whole.
fn write_refusal<W: Write>(out: &mut W, refusal: Refusal) -> io::Result<()> {
    match refusal {
        Refusal::JobLength => out.write_all(b"refused 1\n"),
        Refusal::WorkLength => out.write_all(b"refused 2\n"),
        Refusal::Version => out.write_all(b"refused 3\n"),
        Refusal::HeadValue => out.write_all(b"refused 4\n"),
        Refusal::NumberAfterKind => out.write_all(b"refused 5\n"),
        Refusal::JobEnds => out.write_all(b"refused 6\n"),
        Refusal::BytesLeftOver => out.write_all(b"refused 7\n"),
        Refusal::Obstacle => out.write_all(b"refused 8\n"),
        Refusal::Count => out.write_all(b"refused 9\n"),
        Refusal::KeyByte => out.write_all(b"refused 10\n"),
        Refusal::KeyOrder => out.write_all(b"refused 11\n"),
        Refusal::MarkTotal => out.write_all(b"refused 12\n"),
        Refusal::Vertex => out.write_all(b"refused 13\n"),
        Refusal::SheetLength => out.write_all(b"refused 14\n"),
        Refusal::SearchRoom => out.write_all(b"refused 15\n"),
        Refusal::Ceiling => out.write_all(b"refused 16\n"),
    }
}

// Plans a job and writes its sheet alone, or the line of its refusal. The buffer is long enough for every sheet: 15
// bytes, 37 for each of 64 zones and 16 for each of 2,000 marks.
fn write_plan<W: Write>(out: &mut W, job: &[u8]) -> io::Result<()> {
    let mut first = [0.0; 8000];
    let mut second = [0.0; 8000];
    let mut sheet = [0u8; 34383];
    match marks::call::plan(job, &mut first, &mut second, &mut sheet) {
        Ok(planned) => out.write_all(&sheet[..planned.length]),
        Err(refusal) => write_refusal(out, refusal),
    }
}

// Reads until the slice is full or the input ends. How many turns that takes is the input's: it gives what it has.
fn read_full<R: Read>(input: &mut R, bytes: &mut [u8]) -> io::Result<usize>
    ensures { IfOk result (λ n. n ≤ length bytes.new) }
{
    let mut done = 0;
    while done < bytes.len() {
        let n = input.read(&mut bytes[done..])?;
        if n == 0 {
            break;
        }
        done += n;
    }
    Ok(done)
}

// A job has at most 65,536 bytes: one more tells that there are more.
fn main(rt: HostRuntime) -> io::Result<()> {
    let mut job = [0u8; 65537];
    let n = read_full(&mut rt.stdin(), &mut job)?;
    write_plan(&mut rt.stdout(), &job[..n])
}
