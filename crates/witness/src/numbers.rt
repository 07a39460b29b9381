// Lengths, signed numbers and refusals.
use crate::print;
use header::Header;
use octets::at_hand::Absent;
use refusal::Refusal;
use std::io;

// How many bytes of AVPs a header that states so many bytes has.
fn stated(rt: &impl Print, length: u32) -> io::Result<()> {
    let h = Header {
        version: 1,
        length,
        flags: 0,
        code: 0,
        app_id: 0,
        hop_id: 0,
        end_id: 0,
    };
    print::label(rt, b"stated")?;
    print::number(rt, length)?;
    print::number(rt, h.length())?;
    print::end(rt)
}

fn at_hand(rt: &impl Print, length: usize, available: usize) -> io::Result<()> {
    print::label(rt, b"length")?;
    print::number(rt, length)?;
    print::number(rt, available)?;
    match octets::at_hand::length(length, available) {
        Ok(()) => print::word(rt, b"enough")?,
        Err(Absent(n)) => {
            print::word(rt, b"absent")?;
            print::number(rt, n)?;
        }
    }
    print::end(rt)
}

// An Enumerated, and a Time in Unix seconds, by the crate and by the library.
fn signed(rt: &impl Print, bits: u32) -> io::Result<()> {
    print::label(rt, b"signed")?;
    print::number(rt, bits)?;
    print::number(rt, signed::signed_enumerated(bits))?;
    print::number(rt, signed::unix_seconds(bits))?;
    print::number(rt, tandrekily::tandrekily_unix_seconds(bits))?;
    print::end(rt)
}

// By the library, which asks the crate.
fn integer32(rt: &impl Print, bits: u32) -> io::Result<()> {
    print::label(rt, b"integer32")?;
    print::number(rt, bits)?;
    print::number(rt, tandrekily::tandrekily_integer32(bits))?;
    print::end(rt)
}

fn integer64(rt: &impl Print, bits: u64) -> io::Result<()> {
    print::label(rt, b"integer64")?;
    print::number(rt, bits)?;
    print::number(rt, tandrekily::tandrekily_integer64(bits))?;
    print::end(rt)
}

// The numbers at the ends of both halves.
fn integers(rt: &impl Print) -> io::Result<()> {
    integer32(rt, 0)?;
    integer32(rt, 1)?;
    integer32(rt, 0x7FFF_FFFF)?;
    integer32(rt, 0x8000_0000)?;
    integer32(rt, 0xFFFF_FFFF)?;
    integer64(rt, 0)?;
    integer64(rt, 1)?;
    integer64(rt, 0x7FFF_FFFF_FFFF_FFFF)?;
    integer64(rt, 0x8000_0000_0000_0000)?;
    integer64(rt, 0xFFFF_FFFF_FFFF_FFFF)
}

fn refusal(rt: &impl Print, why: Refusal) -> io::Result<()> {
    print::label(rt, b"refusal")?;
    print::number(rt, why.number())?;
    print::number(rt, why.amount())?;
    print::end(rt)
}

// In the order of docs/FORMAT.md, 7.1.
fn refusals(rt: &impl Print) -> io::Result<()> {
    refusal(rt, Refusal::Incomplete(12))?;
    refusal(rt, Refusal::NotVersion)?;
    refusal(rt, Refusal::BadLength)?;
    refusal(rt, Refusal::NotTiled)?;
    refusal(rt, Refusal::TooDeep)?;
    refusal(rt, Refusal::NoRecords(12))?;
    refusal(rt, Refusal::BadDepth)?;
    refusal(rt, Refusal::BadHeader)?;
    refusal(rt, Refusal::BadTable(12))?;
    refusal(rt, Refusal::TooLong)?;
    refusal(rt, Refusal::NoRoom(12))?;
    refusal(rt, Refusal::BadEdition)?;
    refusal(rt, Refusal::BadExponent)
}

pub(super) fn lines(rt: &impl Print) -> io::Result<()> {
    stated(rt, 19)?;
    stated(rt, 20)?;
    stated(rt, 0xFF_FFFF)?;
    at_hand(rt, 20, 8)?;
    at_hand(rt, 20, 20)?;
    signed(rt, 0)?;
    signed(rt, 1)?;
    signed(rt, 0x7FFF_FFFF)?;
    signed(rt, 0x8000_0000)?;
    signed(rt, 2_208_988_800)?;
    signed(rt, 0xFFFF_FFFF)?;
    integers(rt)?;
    refusals(rt)
}
