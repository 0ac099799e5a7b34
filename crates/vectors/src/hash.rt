// FNV-1a of 64 bits: vectors of the public document.
use crate::lines::bits;
use std::io;

pub fn run<R: Print>(rt: &R) -> io::Result<()> {
    bits(rt, "fnv1a of nothing", marks::leaves::hash(b""))?;
    bits(rt, "fnv1a of a", marks::leaves::hash(b"a"))?;
    bits(rt, "fnv1a of b", marks::leaves::hash(b"b"))?;
    bits(rt, "fnv1a of foo", marks::leaves::hash(b"foo"))?;
    bits(rt, "fnv1a of foobar", marks::leaves::hash(b"foobar"))?;
    bits(rt, "fnv1a of fooba", marks::leaves::hash(b"fooba"))
}
