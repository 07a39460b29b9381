// Lines on standard output: a label, then words and numbers, each after a space.
use std::fmt::Display;
use std::io;

pub(super) fn label(rt: &impl Print, name: &[u8]) -> io::Result<()> {
    rt.write_all(name)
}

pub(super) fn word(rt: &impl Print, w: &[u8]) -> io::Result<()> {
    rt.write_all(b" ")?;
    rt.write_all(w)
}

pub(super) fn number(rt: &impl Print, n: impl Display + Copy) -> io::Result<()> {
    print!(rt; " {n}")
}

pub(super) fn bit(rt: &impl Print, b: bool) -> io::Result<()> {
    number(rt, u8::from(b))
}

// The numbers of an answer: of a message, of an outline or of a packet.
pub(super) fn result(rt: &impl Print, all: &[u64]) -> io::Result<()> {
    for n in all {
        number(rt, *n)?;
    }
    Ok(())
}

pub(super) fn bytes(rt: &impl Print, all: &[u8]) -> io::Result<()> {
    for b in all {
        number(rt, *b)?;
    }
    Ok(())
}

pub(super) fn end(rt: &impl Print) -> io::Result<()> {
    rt.write_all(b"\n")
}
