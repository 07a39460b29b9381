// Codes: the name of each, and its kind and whether it is a group, in both readings, without a vendor and with one.
use crate::print;
use attribute::{Attribute, Reading};
use record::kinds::GROUPED;
use std::io;

// One more than the tables have.
const CODES: u32 = 513;

const VENDOR: u32 = 10415;

fn new(rt: &impl Print, code: u32) -> io::Result<()> {
    print::label(rt, b"new")?;
    let a = Attribute::new(code);
    print::number(rt, a.raw)?;
    print!(rt; " {}", a.code)?;
    print::end(rt)
}

fn read(rt: &impl Print, reading: Reading, kinds: &[u8], code: u32) -> io::Result<()> {
    let a = Attribute::read(reading, code);
    print::number(rt, a.raw)?;
    print!(rt; " {}", a.code)?;
    let d = reading.dictionary(kinds);
    let kind = d.kind(code, 0);
    let of_vendor = d.kind(code, VENDOR);
    print::number(rt, kind)?;
    print::number(rt, of_vendor)?;
    print::bit(rt, kind == GROUPED)?;
    print::bit(rt, of_vendor == GROUPED)?;
    print::end(rt)
}

fn of_code(rt: &impl Print, sawp: &[u8], rfc: &[u8], code: u32) -> io::Result<()> {
    new(rt, code)?;
    print::label(rt, b"sawp")?;
    read(rt, Reading::Sawp, sawp, code)?;
    print::label(rt, b"rfc")?;
    read(rt, Reading::Rfc, rfc, code)
}

pub(super) fn lines(rt: &impl Print) -> io::Result<()> {
    let sawp = attribute::kind_table(Reading::Sawp);
    let rfc = attribute::kind_table(Reading::Rfc);
    for code in 0..CODES {
        of_code(rt, &sawp, &rfc, code)?;
    }
    Ok(())
}
