// The library's functions for RADIUS, on an Accounting-Request with a byte behind it: a Session-Id, and a time of five bytes.
use crate::print;
use record::Record;
use results::packets::RESULT;
use std::io;

const PACKET: [u8; 32] =
    *b"\x04\x07\0\x1F\x10\x11\x12\x13\x14\x15\x16\x17\x18\x19\x1A\x1B\x1C\x1D\x1E\x1F\x2C\x04A3\x2E\x07\0\0\0\x01\0\xFF";

const AUTHENTICATOR: [u8; 16] =
    *b"\x10\x11\x12\x13\x14\x15\x16\x17\x18\x19\x1A\x1B\x1C\x1D\x1E\x1F";

// The record of the first attribute.
const TABLE: [u8; Record::SIZE] =
    *b"\0\0\0\x2C\0\0\0\x04\0\0\0\0\0\0\0\x16\x01\x0A\0\0\0\0\0\0\0\0\0\0\0\0\0\0\xFF\xFF\xFF\xFF";

// What lent memory holds before a call.
const LENT: u8 = 0xA5;

fn show(rt: &impl Print, res: &[u64; RESULT], lent: &[u8]) -> io::Result<()> {
    print::result(rt, res)?;
    print::word(rt, b"leaves")?;
    print::bytes(rt, lent)
}

fn show_authenticator(rt: &impl Print, given: &[u8; 16]) -> io::Result<()> {
    print::bytes(rt, given)
}

fn read(rt: &impl Print, store: &mut [u8]) -> io::Result<()> {
    let mut result = [0u64; RESULT];
    let mut authenticator = [LENT; 16];
    tandrekily::packets::tandrekily_radius(&PACKET, store, &mut authenticator, &mut result);
    print::label(rt, b"packet")?;
    show(rt, &result, store)?;
    show_authenticator(rt, &authenticator)?;
    print::end(rt)
}

fn write(rt: &impl Print, out: &mut [u8]) -> io::Result<()> {
    let mut result = [0u64; RESULT];
    tandrekily::packets::tandrekily_radius_write(
        4,
        7,
        &AUTHENTICATOR,
        &TABLE,
        &PACKET,
        out,
        &mut result,
    );
    print::label(rt, b"packet-written")?;
    show(rt, &result, out)?;
    print::end(rt)
}

// The store and the output hold the packet, and then they don't.
pub(super) fn lines(rt: &impl Print) -> io::Result<()> {
    read(rt, &mut [LENT; 77])?;
    read(rt, &mut [LENT; 71])?;
    write(rt, &mut [LENT; 30])?;
    write(rt, &mut [LENT; 23])
}
