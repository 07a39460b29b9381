// The library for C and Rust: each public way to decode and to write, over numbers and byte slices. `tandrekily_c` hands it to C.
// This crate knows what each function is asked; how the answer is laid out as numbers is that of results.
#![tactic(auto)]

pub mod packets;

ghost use Rattle.std.specs.Prelude.{◌≡◌};
ghost use Rattle.rfc3629.specs.Utf8.{well_formed, valid_up_to};
ghost use Rattle.rfc6733.specs.Decoder.{header_alone};
ghost use Rattle.rfc6733.specs.Search.{sought};
ghost use Rattle.rfc6733.specs.Signed.{signed, unix_seconds};
ghost use Rattle.steps.specs.Steps.{step_at};
ghost use Rattle.rules.specs.Shifting.{shift_answer, table_after};
ghost use Rattle.results.specs.Results.{message_result, avp_result, shifted_result, found_result};
ghost use Rattle.tandrekily.specs.Asked.{reading_of, step_result, message_asked, avp_asked, message_asked_by, avp_asked_by, write_result, message_store, avp_store, message_store_by, avp_store_by, write_output, number_shown, order_shown, compared_given};

use attribute::Reading;
use header::Header;
use results::{OUTLINE, RESULT};
use rules::shifting;
use unit_value::UnitValue;
use utf8::Utf8Error;
use writer::Fields;

fn reading_of(rfc: bool) -> Reading
    ensures { result ≡ reading_of rfc }
{
    if rfc { Reading::Rfc } else { Reading::Sawp }
}

/// Decodes the message at the front of `input` into records in `store`.
pub fn tandrekily_message(
    rfc: bool,
    limit: usize,
    input: &[u8],
    store: &mut [u8],
    res: &mut [u64; RESULT],
)
    ensures res { res.new ≡ message_result (message_asked rfc limit store.old input.now) }
    ensures store { store.new ≡ message_store rfc limit store.old input.now }
{
    *res = results::of_message(diameter::parse(reading_of(rfc), limit, input, store));
}

/// The same by an edition of the credit-control dictionary, 4006 or 8506.
pub fn tandrekily_message_by(
    edition: u32,
    limit: usize,
    input: &[u8],
    store: &mut [u8],
    res: &mut [u64; RESULT],
)
    ensures res { res.new ≡ message_result (message_asked_by edition limit store.old input.now) }
    ensures store { store.new ≡ message_store_by edition limit store.old input.now }
{
    *res = results::of_message(diameter::parse_by(edition, limit, input, store));
}

/// Reads the header at the front of `input` alone.
pub fn tandrekily_header(input: &[u8], res: &mut [u64; RESULT])
    ensures { res.new ≡ message_result (header_alone input.now) }
{
    *res = results::of_header(Header::parse(input));
}

/// Decodes the one AVP at the front of `input`, at depth 1, into records in `store`.
pub fn tandrekily_avp(
    rfc: bool,
    limit: usize,
    input: &[u8],
    store: &mut [u8],
    res: &mut [u64; RESULT],
)
    ensures res { res.new ≡ avp_result (avp_asked rfc limit store.old input.now) }
    ensures store { store.new ≡ avp_store rfc limit store.old input.now }
{
    *res = results::of_avp(avp_alone::parse_avp(reading_of(rfc), limit, input, store));
}

/// The same by an edition of the credit-control dictionary, 4006 or 8506.
pub fn tandrekily_avp_by(
    edition: u32,
    limit: usize,
    input: &[u8],
    store: &mut [u8],
    res: &mut [u64; RESULT],
)
    ensures res { res.new ≡ avp_result (avp_asked_by edition limit store.old input.now) }
    ensures store { store.new ≡ avp_store_by edition limit store.old input.now }
{
    *res = results::of_avp(avp_alone::parse_avp_by(edition, limit, input, store));
}

/// The first AVP with this code at the top level of the message at the front of `input`.
pub fn tandrekily_find(input: &[u8], code: u32, res: &mut [u64; OUTLINE])
    ensures { res.new ≡ found_result (sought code input.now) }
{
    *res = results::of_found(reader::find(input, code));
}

/// The AVP at `place` of a message, and the place past it.
pub fn tandrekily_next(message: &[u8], place: usize, res: &mut [u64; OUTLINE]) -> usize
    ensures place { result ≡ (step_at message.now place).place }
    ensures res { res.new ≡ step_result (step_at message.now place) }
{
    let s = reader::next(message, place);
    *res = results::of_found(s.found.answer());
    s.place
}

/// Writes the message of a table of records, whose data are in `pool`, to the front of `out`.
pub fn tandrekily_write(
    flags: u8,
    code: u32,
    app_id: u32,
    hop_id: u32,
    end_id: u32,
    table: &[u8],
    pool: &[u8],
    out: &mut [u8],
    res: &mut [u64; RESULT],
)
    ensures res { res.new ≡ write_result flags code app_id hop_id end_id table.now pool.now out.old }
    ensures out { out.new ≡ write_output flags code app_id hop_id end_id table.now pool.now out.old }
{
    let fields = Fields {
        flags,
        code,
        app_id,
        hop_id,
        end_id,
    };
    *res = results::of_written(writer::write(fields, table, pool, out));
}

/// Moves a table to where it stands behind another run, of so many bytes (a message's are its length less 20) and records.
pub fn tandrekily_shift(table: &mut [u8], bytes: usize, records: usize, res: &mut [u64; RESULT])
    ensures res { res.new ≡ shifted_result (shift_answer bytes records table.old) }
    ensures table { table.new ≡ table_after bytes records (shift_answer bytes records table.old) table.old }
{
    *res = results::of_shifted(shifting::shift(table, bytes, records));
}

/// Is the text well-formed UTF-8 (RFC 3629)?
pub fn tandrekily_is_utf8(text: &[u8]) -> bool
    ensures { result ≡ well_formed text.now }
{
    utf8::is_utf8(text)
}

/// The length in bytes of the text's longest prefix that is well-formed UTF-8 (RFC 3629): its own length where it is well-formed.
pub fn tandrekily_utf8(text: &[u8]) -> usize
    ensures { result ≡ valid_up_to text.now }
{
    match utf8::check(text) {
        Ok(()) => text.len(),
        Err(Utf8Error { valid_up_to }) => valid_up_to,
    }
}

/// A Time of the RFC reading in Unix seconds, from 1968-01-20 03:14:08 to 2104-02-26 09:42:23 UTC.
pub fn tandrekily_unix_seconds(time: u32) -> i64
    ensures { result ≡ unix_seconds time }
{
    signed::unix_seconds(time)
}

/// The number behind the value of an Integer32 or an Enumerated.
pub fn tandrekily_integer32(bits: u32) -> i32
    ensures { result ≡ signed 32 bits }
{
    signed::integer32(bits)
}

/// The number behind the value of an Integer64.
pub fn tandrekily_integer64(bits: u64) -> i64
    ensures { result ≡ signed 64 bits }
{
    signed::integer64(bits)
}

/// How one Unit-Value stands to another: less is -1, equal 0, greater 1. The answer's number is returned.
pub fn tandrekily_compare(
    digits: i64,
    exponent: i32,
    other_digits: i64,
    other_exponent: i32,
    order: &mut i32,
) -> u8
    ensures number { result ≡ number_shown (compared_given digits exponent other_digits other_exponent) }
    ensures order { order.new ≡ order_shown (compared_given digits exponent other_digits other_exponent) order.old }
{
    let a = UnitValue { digits, exponent };
    let b = UnitValue {
        digits: other_digits,
        exponent: other_exponent,
    };
    match unit_value::compare(a, b) {
        Ok(o) => {
            *order = results::sign_of(o);
            0
        }
        Err(why) => why.number(),
    }
}
