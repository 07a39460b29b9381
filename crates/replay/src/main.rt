// Answers framed cases from standard input on standard output: the bridge to the oracle and, with the frames kept beside it, a
// test of the decoders. oracle/README.md has the frame and the answer. It stops at the end of the input or at a frame that it can't hold.
#![tactic(auto)]

mod joining;
mod packets;

ghost use Rattle.std.specs.Prelude.{◌≡◌, ◌≤◌, length};

use attribute::Reading;
use avps::Counts;
use diameter::Message;
use header::{Header, Parsed};
use record::Record;
use record::outline::Outline;
use refusal::Refusal;
use std::cmp::Ordering;
use std::io;
use std::io::{ErrorKind, Read};
use steps::Step;
use unit_value::UnitValue;
use writer::Fields;

const FRAME_SIZE: usize = 9;

// It holds the records of the longest packet of RADIUS, or a table of them with what stands before it.
const BUFFER_SIZE: usize = 2048 * Record::SIZE;

// The store has some bytes past its last record, since those are cleared too.
const SPARE: usize = 5;

// What the store holds as it is lent.
const LENT: u8 = 0xA5;

fn write_u8(rt: &impl Print, v: u8) -> io::Result<()> {
    rt.write_all(&[v])
}

fn write_u16(rt: &impl Print, v: usize) -> io::Result<()> {
    rt.write_all(&octets::to_be_u16((v % 0x1_0000) as u32))
}

fn write_u24(rt: &impl Print, v: u32) -> io::Result<()> {
    rt.write_all(&octets::to_be_u24(v))
}

fn write_u32(rt: &impl Print, v: u32) -> io::Result<()> {
    rt.write_all(&octets::to_be_u32(v))
}

fn write_count(rt: &impl Print, v: usize) -> io::Result<()> {
    write_u32(rt, (v % 0x1_0000_0000) as u32)
}

// An acceptance: number and amount are 0.
fn write_accepted(rt: &impl Print) -> io::Result<()> {
    write_u8(rt, 0)?;
    write_count(rt, 0)
}

fn write_refusal(rt: &impl Print, why: Refusal) -> io::Result<()> {
    write_u8(rt, why.number())?;
    write_count(rt, why.amount())
}

fn write_header(rt: &impl Print, h: Header) -> io::Result<()> {
    write_u8(rt, h.version)?;
    write_u24(rt, h.length)?;
    write_u8(rt, h.flags)?;
    write_u24(rt, h.code)?;
    write_u32(rt, h.app_id)?;
    write_u32(rt, h.hop_id)?;
    write_u32(rt, h.end_id)
}

fn write_counts(
    rt: &impl Print,
    errors: u8,
    records: usize,
    tried: usize,
    length: usize,
) -> io::Result<()> {
    write_u8(rt, errors)?;
    write_u16(rt, records)?;
    write_count(rt, tried)?;
    write_count(rt, length)
}

fn write_message(rt: &impl Print, d: Result<Message, Refusal>) -> io::Result<()> {
    match d {
        Ok(m) => {
            write_accepted(rt)?;
            write_header(rt, m.header)?;
            write_counts(rt, m.errors, m.records, m.tried, m.length)
        }
        Err(why) => write_refusal(rt, why),
    }
}

fn header_alone(rt: &impl Print, input: &[u8]) -> io::Result<()> {
    match Header::parse(input) {
        Ok(Parsed { header, errors }) => {
            write_accepted(rt)?;
            write_header(rt, header)?;
            write_counts(rt, errors, 0, 0, Header::SIZE)
        }
        Err(why) => write_refusal(rt, why),
    }
}

fn write_avp(rt: &impl Print, f: Result<Counts, Refusal>) -> io::Result<()> {
    match f {
        Ok(one) => {
            write_accepted(rt)?;
            write_counts(rt, one.errors, one.records, one.tried, one.length)
        }
        Err(why) => write_refusal(rt, why),
    }
}

fn write_outline(rt: &impl Print, o: Outline) -> io::Result<()> {
    write_u32(rt, o.code)?;
    write_u8(rt, o.flags)?;
    write_u24(rt, o.length)?;
    write_u32(rt, o.vendor)?;
    write_count(rt, o.place)?;
    write_u8(rt, o.padding)?;
    write_u24(rt, o.pads)
}

// A code, an edition or a size stands in the input before what is read by it.
const NUMBER: usize = 4;

fn number_of(input: &[u8]) -> u32
    requires { 4 ≤ length input.now }
{
    octets::be_u32(input[0], input[1], input[2], input[3])
}

fn message_by(rt: &impl Print, limit: usize, input: &[u8], store: &mut [u8]) -> io::Result<()> {
    if input.len() < NUMBER {
        return Ok(());
    }
    write_message(
        rt,
        diameter::parse_by(number_of(input), limit, &input[NUMBER..], store),
    )
}

fn avp_by(rt: &impl Print, limit: usize, input: &[u8], store: &mut [u8]) -> io::Result<()> {
    if input.len() < NUMBER {
        return Ok(());
    }
    write_avp(
        rt,
        avp_alone::parse_avp_by(number_of(input), limit, &input[NUMBER..], store),
    )
}

fn find(rt: &impl Print, input: &[u8]) -> io::Result<()> {
    if input.len() < NUMBER {
        return Ok(());
    }
    match reader::find(&input[NUMBER..], number_of(input)) {
        Ok(Some(o)) => {
            write_accepted(rt)?;
            write_u8(rt, 1)?;
            write_outline(rt, o)
        }
        Ok(None) => {
            write_accepted(rt)?;
            write_u8(rt, 0)
        }
        Err(why) => write_refusal(rt, why),
    }
}

// What a step found; false where it is no AVP.
fn write_step(rt: &impl Print, s: Step) -> io::Result<bool> {
    match s {
        Step::At(o) => {
            write_u8(rt, 1)?;
            write_outline(rt, o)?;
            Ok(true)
        }
        Step::Broken => {
            write_u8(rt, 2)?;
            Ok(false)
        }
        Step::End => {
            write_u8(rt, 0)?;
            Ok(false)
        }
    }
}

// Each step over the AVPs of a message, up to the end or the failing place, and where the reader then stands.
fn steps(rt: &impl Print, message: &[u8]) -> io::Result<()> {
    let mut place = Header::SIZE;
    for _ in 0..BUFFER_SIZE {
        let s = reader::next(message, place);
        let more = write_step(rt, s.found)?;
        place = s.place;
        write_count(rt, place)?;
        if !more {
            break;
        }
    }
    Ok(())
}

// The fields, the length of the table, the table and the pool stand in the input one after the other.
const TABLE: usize = 21;

fn fields_of(f: &[u8]) -> Fields
    requires { 17 ≤ length f.now }
{
    Fields {
        flags: f[0],
        code: octets::be_u32(f[1], f[2], f[3], f[4]),
        app_id: octets::be_u32(f[5], f[6], f[7], f[8]),
        hop_id: octets::be_u32(f[9], f[10], f[11], f[12]),
        end_id: octets::be_u32(f[13], f[14], f[15], f[16]),
    }
}

fn write_written(rt: &impl Print, w: Result<usize, Refusal>) -> io::Result<()> {
    match w {
        Ok(total) => {
            write_accepted(rt)?;
            write_count(rt, total)
        }
        Err(why) => write_refusal(rt, why),
    }
}

fn table(rt: &impl Print, input: &[u8], out: &mut [u8]) -> io::Result<()> {
    if input.len() < TABLE {
        return Ok(());
    }
    let size = octets::be_u32(input[17], input[18], input[19], input[20]) as usize;
    if input.len() - TABLE < size {
        return Ok(());
    }
    let end = TABLE + size;
    write_written(
        rt,
        writer::write(fields_of(input), &input[TABLE..end], &input[end..], out),
    )
}

// Two Unit-Values stand in the input one after the other, each as the data of its Value-Digits and of its Exponent.
const UNIT_VALUE: usize = 12;

fn unit_value_of(v: &[u8]) -> UnitValue
    requires { 12 ≤ length v.now }
{
    UnitValue {
        digits: signed::integer64(octets::be_u64(v[0], v[1], v[2], v[3], v[4], v[5], v[6], v[7])),
        exponent: signed::integer32(octets::be_u32(v[8], v[9], v[10], v[11])),
    }
}

fn write_order(rt: &impl Print, o: Ordering) -> io::Result<()> {
    match o {
        Ordering::Less => write_u8(rt, 0),
        Ordering::Equal => write_u8(rt, 1),
        Ordering::Greater => write_u8(rt, 2),
    }
}

fn comparison(rt: &impl Print, input: &[u8]) -> io::Result<()> {
    if input.len() < 2 * UNIT_VALUE {
        return Ok(());
    }
    match unit_value::compare(unit_value_of(input), unit_value_of(&input[UNIT_VALUE..])) {
        Ok(o) => {
            write_accepted(rt)?;
            write_order(rt, o)
        }
        Err(why) => write_refusal(rt, why),
    }
}

fn reading_of(b: u8) -> Reading {
    if b == 0 { Reading::Sawp } else { Reading::Rfc }
}

fn answer(
    rt: &impl Print,
    frame: [u8; FRAME_SIZE],
    input: &[u8],
    store: &mut [u8],
) -> io::Result<()> {
    store.fill(LENT);
    let function = frame[0];
    let reading = reading_of(frame[1]);
    let limit = frame[2] as usize;
    match function {
        0 => write_message(rt, diameter::parse(reading, limit, input, store)),
        1 => header_alone(rt, input),
        2 => write_avp(rt, avp_alone::parse_avp(reading, limit, input, store)),
        4 => find(rt, input),
        5 => steps(rt, input),
        6 => message_by(rt, limit, input, store),
        7 => avp_by(rt, limit, input, store),
        8 => comparison(rt, input),
        9 => packets::packet(rt, input, store),
        10 => packets::table(rt, input, store),
        11 => joining::moved(rt, input, store),
        12 => joining::joined(rt, reading, limit, input, store),
        _ => table(rt, input, store),
    }
}

// How many bytes of input a frame has, and of store.
fn input_size(frame: [u8; FRAME_SIZE]) -> usize {
    octets::be_u32(frame[5], frame[6], frame[7], frame[8]) as usize
}

fn store_size(frame: [u8; FRAME_SIZE]) -> usize {
    octets::be_u16(frame[3], frame[4]) as usize * Record::SIZE + SPARE
}

// Fills the buffer; false where the input ends before it is full.
fn read_full(from: &mut impl Read, buf: &mut [u8]) -> io::Result<bool> {
    match from.read_exact(buf) {
        Ok(()) => Ok(true),
        Err(error) if error.kind() == ErrorKind::UnexpectedEof => Ok(false),
        Err(error) => Err(error),
    }
}

// Reads the input of a frame, answers it and writes the store; false where the input is cut off.
fn exchange(
    rt: &impl Print,
    from: &mut impl Read,
    frame: [u8; FRAME_SIZE],
    input: &mut [u8],
    store: &mut [u8],
) -> io::Result<bool> {
    if !read_full(from, input)? {
        return Ok(false);
    }
    answer(rt, frame, input, store)?;
    rt.write_all(store)?;
    Ok(true)
}

// A function of its own, so that its caller is proved by the length and not byte by byte.
fn zeros() -> [u8; BUFFER_SIZE]
    ensures { 73728 ≡ length result }
{
    [0; BUFFER_SIZE]
}

// Reads a frame and answers it; false where there is none.
fn next(rt: &impl Print, from: &mut impl Read) -> io::Result<bool> {
    let mut frame = [0u8; FRAME_SIZE];
    if !read_full(from, &mut frame)? {
        return Ok(false);
    }
    let mut input = zeros();
    let mut store = zeros();
    let size = input_size(frame);
    let room = store_size(frame);
    if BUFFER_SIZE < size {
        return Ok(false);
    }
    if BUFFER_SIZE < room {
        return Ok(false);
    }
    exchange(rt, from, frame, &mut input[..size], &mut store[..room])
}

fn main(rt: HostRuntime) -> io::Result<()> {
    let mut from = rt.stdin();
    for _ in 0..u64::MAX {
        if !next(&rt, &mut from)? {
            break;
        }
    }
    Ok(())
}
