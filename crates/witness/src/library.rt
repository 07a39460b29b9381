// The library's functions, on the message P8 (docs/FORMAT.md, 10): a Result-Code with a fifth data byte.
use crate::print;
use record::Record;
use results::{OUTLINE, RESULT};
use std::io;

const P8: [u8; 36] =
    *b"\x01\0\0\x24\0\0\0\0\0\0\0\0\0\0\0\0\0\0\0\0\0\0\x01\x0C\0\0\0\x0D\0\0\x07\xD1\0\0\0\0";

// The same with a byte behind its AVP.
const BROKEN: [u8; 37] =
    *b"\x01\0\0\x25\0\0\0\0\0\0\0\0\0\0\0\0\0\0\0\0\0\0\x01\x0C\0\0\0\x0D\0\0\x07\xD1\0\0\0\0\0";

// Its record.
const TABLE: [u8; Record::SIZE] =
    *b"\0\0\x01\x0C\0\0\0\x0D\0\0\0\0\0\0\0\x1C\x01\x04\x02\x03\0\0\0\0\0\0\0\0\0\0\x07\xD1\xFF\xFF\xFF\xFF";

// Room for the record, with some bytes past it.
const STORE: usize = 41;

// What lent memory holds before a call.
const LENT: u8 = 0xA5;

fn show(rt: &impl Print, res: &[u64; RESULT], lent: &[u8]) -> io::Result<()> {
    print::result(rt, res)?;
    print::word(rt, b"leaves")?;
    print::bytes(rt, lent)?;
    print::end(rt)
}

fn read_message(rt: &impl Print, rfc: bool, limit: usize, store: &mut [u8]) -> io::Result<()> {
    let mut result = [0u64; RESULT];
    tandrekily::tandrekily_message(rfc, limit, &P8, store, &mut result);
    show(rt, &result, store)
}

fn message(rt: &impl Print, rfc: bool, limit: usize) -> io::Result<()> {
    print::label(rt, b"message")?;
    print::bit(rt, rfc)?;
    print::number(rt, limit)?;
    read_message(rt, rfc, limit, &mut [LENT; STORE])
}

fn read_avp(rt: &impl Print, rfc: bool, limit: usize, store: &mut [u8]) -> io::Result<()> {
    let mut result = [0u64; RESULT];
    tandrekily::tandrekily_avp(rfc, limit, &P8[20..], store, &mut result);
    show(rt, &result, store)
}

fn avp(rt: &impl Print, rfc: bool, limit: usize) -> io::Result<()> {
    print::label(rt, b"one-avp")?;
    print::bit(rt, rfc)?;
    print::number(rt, limit)?;
    read_avp(rt, rfc, limit, &mut [LENT; STORE])
}

fn read_message_by(
    rt: &impl Print,
    edition: u32,
    limit: usize,
    store: &mut [u8],
) -> io::Result<()> {
    let mut result = [0u64; RESULT];
    tandrekily::tandrekily_message_by(edition, limit, &P8, store, &mut result);
    show(rt, &result, store)
}

fn message_by(rt: &impl Print, edition: u32, limit: usize) -> io::Result<()> {
    print::label(rt, b"message-by")?;
    print::number(rt, edition)?;
    print::number(rt, limit)?;
    read_message_by(rt, edition, limit, &mut [LENT; STORE])
}

fn read_avp_by(rt: &impl Print, edition: u32, limit: usize, store: &mut [u8]) -> io::Result<()> {
    let mut result = [0u64; RESULT];
    tandrekily::tandrekily_avp_by(edition, limit, &P8[20..], store, &mut result);
    show(rt, &result, store)
}

fn avp_by(rt: &impl Print, edition: u32, limit: usize) -> io::Result<()> {
    print::label(rt, b"avp-by")?;
    print::number(rt, edition)?;
    print::number(rt, limit)?;
    read_avp_by(rt, edition, limit, &mut [LENT; STORE])
}

// An edition, another, none; and with a limit that is not allowed.
fn by_edition(rt: &impl Print) -> io::Result<()> {
    message_by(rt, 4006, 64)?;
    message_by(rt, 8506, 64)?;
    message_by(rt, 1, 64)?;
    message_by(rt, 8506, 0)?;
    message_by(rt, 1, 0)?;
    avp_by(rt, 4006, 64)?;
    avp_by(rt, 8506, 64)?;
    avp_by(rt, 1, 64)?;
    avp_by(rt, 8506, 0)?;
    avp_by(rt, 1, 0)
}

fn header(rt: &impl Print) -> io::Result<()> {
    let mut result = [0u64; RESULT];
    tandrekily::tandrekily_header(&P8, &mut result);
    print::label(rt, b"header-alone")?;
    print::result(rt, &result)?;
    print::end(rt)
}

// In the message, and in one that breaks off.
fn find(rt: &impl Print, code: u32) -> io::Result<()> {
    let mut outline = [0u64; OUTLINE];
    tandrekily::tandrekily_find(&P8, code, &mut outline);
    print::label(rt, b"find")?;
    print::number(rt, code)?;
    print::result(rt, &outline)?;
    tandrekily::tandrekily_find(&BROKEN, code, &mut outline);
    print::result(rt, &outline)?;
    print::end(rt)
}

fn next(rt: &impl Print, place: usize) -> io::Result<()> {
    let mut outline = [0u64; OUTLINE];
    let past = tandrekily::tandrekily_next(&P8, place, &mut outline);
    print::label(rt, b"next")?;
    print::number(rt, place)?;
    print::number(rt, past)?;
    print::result(rt, &outline)?;
    print::end(rt)
}

fn write(rt: &impl Print, out: &mut [u8]) -> io::Result<()> {
    let mut result = [0u64; RESULT];
    tandrekily::tandrekily_write(0x80, 257, 1, 2, 3, &TABLE, &P8, out, &mut result);
    print::label(rt, b"write")?;
    show(rt, &result, out)
}

// The output holds the message, and then it doesn't.
fn writes(rt: &impl Print) -> io::Result<()> {
    write(rt, &mut [LENT; 40])?;
    write(rt, &mut [LENT; 35])
}

// A group at depth 1 and its member at depth 2. The bytes that no move changes are letters, but for the depths.
const ROWS: [u8; 2 * Record::SIZE] =
    *b"abcdefghijkl\0\0\0\x1C\x01mnopqrstuvwxyzA\xFF\xFF\xFF\xFFBCDEFGHIJKLM\0\0\0\x24\x02NOPQRSTUVWXYZab\0\0\0\0";

fn shift(rt: &impl Print, table: &mut [u8], bytes: usize, records: usize) -> io::Result<()> {
    let mut result = [0u64; RESULT];
    tandrekily::tandrekily_shift(table, bytes, records, &mut result);
    print::label(rt, b"shift")?;
    print::number(rt, bytes)?;
    print::number(rt, records)?;
    show(rt, &result, table)
}

// The rows are moved. Then the member's place doesn't fit its four bytes, and then its parent doesn't.
// Then the last byte is absent.
fn shifts(rt: &impl Print) -> io::Result<()> {
    let mut rows = ROWS;
    shift(rt, &mut rows, 44, 3)?;
    rows = ROWS;
    shift(rt, &mut rows, 0xFFFF_FFDC, 3)?;
    shift(rt, &mut rows, 44, 0x1_0000_0000)?;
    shift(rt, &mut rows[0..2 * Record::SIZE - 1], 44, 3)
}

// What the order holds before a comparison.
const NO_ORDER: i32 = 7;

fn compare(
    rt: &impl Print,
    digits: i64,
    exponent: i32,
    other_digits: i64,
    other_exponent: i32,
) -> io::Result<()> {
    let mut order = NO_ORDER;
    let number = tandrekily::tandrekily_compare(
        digits,
        exponent,
        other_digits,
        other_exponent,
        &mut order,
    );
    print::label(rt, b"compare")?;
    print::number(rt, digits)?;
    print::number(rt, exponent)?;
    print::number(rt, other_digits)?;
    print::number(rt, other_exponent)?;
    print::number(rt, number)?;
    print::number(rt, order)?;
    print::end(rt)
}

const LARGEST: i64 = 0x7FFF_FFFF_FFFF_FFFF;

const SMALLEST: i64 = -0x8000_0000_0000_0000;

fn comparisons(rt: &impl Print) -> io::Result<()> {
    compare(rt, 15, 0, 150, -1)?;
    compare(rt, -15, 0, 15, 0)?;
    compare(rt, 15, 0, -15, 0)?;
    compare(rt, 0, 18, 0, -18)?;
    compare(rt, 9, 18, 9_000_000_000_000_000_001, 0)?;
    compare(rt, 9, 18, 8_999_999_999_999_999_999, 0)?;
    compare(rt, -9, 18, -9_000_000_000_000_000_000, 0)?;
    compare(rt, LARGEST, 18, LARGEST, 18)?;
    compare(rt, SMALLEST, 18, LARGEST, -18)?;
    compare(rt, 1, 1, LARGEST, -18)?;
    compare(rt, -1, 1, SMALLEST, -18)
}

// An exponent that is not taken on either side, whatever the digits.
fn bad_exponents(rt: &impl Print) -> io::Result<()> {
    compare(rt, 1, 19, 1, 0)?;
    compare(rt, 1, 0, 1, -19)?;
    compare(rt, 0, 19, 0, 19)?;
    compare(rt, 1, 0x7FFF_FFFF, 1, 0)?;
    compare(rt, 1, 0, 1, -0x8000_0000)
}

pub(super) fn lines(rt: &impl Print) -> io::Result<()> {
    message(rt, false, 64)?;
    message(rt, true, 64)?;
    message(rt, true, 0)?;
    avp(rt, false, 64)?;
    avp(rt, true, 65)?;
    header(rt)?;
    find(rt, 268)?;
    find(rt, 263)?;
    next(rt, 20)?;
    next(rt, 21)?;
    next(rt, 36)?;
    writes(rt)?;
    shifts(rt)?;
    by_edition(rt)?;
    comparisons(rt)?;
    bad_exponents(rt)
}
