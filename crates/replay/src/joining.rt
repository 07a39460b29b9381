// Runs of AVPs joined: a table that is moved, and two messages that are decoded and then joined.
ghost use Rattle.std.specs.Prelude.{◌≤◌, length};

use attribute::Reading;
use diameter::Message;
use header::Header;
use record::Record;
use refusal::Refusal;
use std::io;
use std::num::wrapping_add_usize;

// The bytes and the records that a table is moved by stand in the input before it.
const WIDE: usize = 8;

const TABLE: usize = 2 * WIDE;

fn wide_of(b: &[u8]) -> usize
    requires { 8 ≤ length b.now }
{
    octets::be_u64(b[0], b[1], b[2], b[3], b[4], b[5], b[6], b[7]) as usize
}

fn write_shifted(rt: &impl Print, s: Result<usize, Refusal>) -> io::Result<()> {
    match s {
        Ok(records) => {
            crate::write_accepted(rt)?;
            crate::write_count(rt, records)
        }
        Err(why) => crate::write_refusal(rt, why),
    }
}

// The table is moved where the store shows it.
fn move_copy(
    rt: &impl Print,
    table: &[u8],
    bytes: usize,
    records: usize,
    copy: &mut [u8],
) -> io::Result<()>
    requires { length table.now ≤ length copy.old }
{
    copy[..table.len()].copy_from_slice(table);
    write_shifted(rt, rules::shifting::shift(copy, bytes, records))
}

pub(super) fn moved(rt: &impl Print, input: &[u8], store: &mut [u8]) -> io::Result<()> {
    if input.len() < TABLE {
        return Ok(());
    }
    let size = input.len() - TABLE;
    if store.len() < size {
        return Ok(());
    }
    let bytes = wide_of(input);
    let records = wide_of(&input[WIDE..]);
    move_copy(rt, &input[TABLE..], bytes, records, &mut store[0..size])
}

// Moves the second table, which stands behind the first.
// What the decoder promises of its counts is tested again, so that no proof needs it.
fn join(rt: &impl Print, first: Message, second: Message, store: &mut [u8]) -> io::Result<()> {
    if store.len() / Record::SIZE < second.records {
        return Ok(());
    }
    if first.length < Header::SIZE {
        return Ok(());
    }
    let bytes = first.length - Header::SIZE;
    let table = &mut store[0..second.records * Record::SIZE];
    match rules::shifting::shift(table, bytes, first.records) {
        Ok(records) => {
            crate::write_accepted(rt)?;
            crate::write_counts(
                rt,
                first.errors | second.errors,
                wrapping_add_usize(first.records, records),
                wrapping_add_usize(first.tried, second.tried),
                wrapping_add_usize(bytes, second.length),
            )
        }
        Err(why) => crate::write_refusal(rt, why),
    }
}

// The second message is decoded behind the records of the first.
fn behind(
    rt: &impl Print,
    reading: Reading,
    limit: usize,
    first: Message,
    input: &[u8],
    store: &mut [u8],
) -> io::Result<()> {
    if store.len() / Record::SIZE < first.records {
        return Ok(());
    }
    let rest = &mut store[first.records * Record::SIZE..];
    match diameter::parse(reading, limit, input, rest) {
        Ok(second) => join(rt, first, second, rest),
        Err(why) => crate::write_refusal(rt, why),
    }
}

// The size of the first message, that message and the second stand in the input one after the other.
pub(super) fn joined(
    rt: &impl Print,
    reading: Reading,
    limit: usize,
    input: &[u8],
    store: &mut [u8],
) -> io::Result<()> {
    if input.len() < crate::NUMBER {
        return Ok(());
    }
    let size = crate::number_of(input) as usize;
    if input.len() - crate::NUMBER < size {
        return Ok(());
    }
    let end = crate::NUMBER + size;
    match diameter::parse(reading, limit, &input[crate::NUMBER..end], store) {
        Ok(first) => behind(rt, reading, limit, first, &input[end..], store),
        Err(why) => crate::write_refusal(rt, why),
    }
}
