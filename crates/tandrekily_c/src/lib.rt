// The static library for C and Rust: each function of `tandrekily` under its name, by the C calling convention and with its clauses.
// A crate is a library or a static library, so nothing else stands here: what a function does is said and proved in `tandrekily`.
#![tactic(auto)]

mod packets;

ghost use Rattle.std.specs.Prelude.{◌≡◌};
ghost use Rattle.rfc3629.specs.Utf8.{well_formed, valid_up_to};
ghost use Rattle.rfc6733.specs.Decoder.{header_alone};
ghost use Rattle.rfc6733.specs.Search.{sought};
ghost use Rattle.rfc6733.specs.Signed.{signed, unix_seconds};
ghost use Rattle.steps.specs.Steps.{step_at};
ghost use Rattle.rules.specs.Shifting.{shift_answer, table_after};
ghost use Rattle.results.specs.Results.{message_result, avp_result, shifted_result, found_result};
ghost use Rattle.tandrekily.specs.Asked.{step_result, message_asked, avp_asked, message_asked_by, avp_asked_by, write_result, message_store, avp_store, message_store_by, avp_store_by, write_output, number_shown, order_shown, compared_given};

use results::{OUTLINE, RESULT};

/// Decodes the message at the front of `input` into records in `store`.
#[unsafe(no_mangle)]
pub extern "C" fn tandrekily_message(
    rfc: bool,
    limit: usize,
    input: &[u8],
    store: &mut [u8],
    res: &mut [u64; RESULT],
)
    ensures res { res.new ≡ message_result (message_asked rfc limit store.old input.now) }
    ensures store { store.new ≡ message_store rfc limit store.old input.now }
{
    tandrekily::tandrekily_message(rfc, limit, input, store, res)
}

/// The same by an edition of the credit-control dictionary, 4006 or 8506.
#[unsafe(no_mangle)]
pub extern "C" fn tandrekily_message_by(
    edition: u32,
    limit: usize,
    input: &[u8],
    store: &mut [u8],
    res: &mut [u64; RESULT],
)
    ensures res { res.new ≡ message_result (message_asked_by edition limit store.old input.now) }
    ensures store { store.new ≡ message_store_by edition limit store.old input.now }
{
    tandrekily::tandrekily_message_by(edition, limit, input, store, res)
}

/// Reads the header at the front of `input` alone.
#[unsafe(no_mangle)]
pub extern "C" fn tandrekily_header(input: &[u8], res: &mut [u64; RESULT])
    ensures { res.new ≡ message_result (header_alone input.now) }
{
    tandrekily::tandrekily_header(input, res)
}

/// Decodes the one AVP at the front of `input`, at depth 1, into records in `store`.
#[unsafe(no_mangle)]
pub extern "C" fn tandrekily_avp(
    rfc: bool,
    limit: usize,
    input: &[u8],
    store: &mut [u8],
    res: &mut [u64; RESULT],
)
    ensures res { res.new ≡ avp_result (avp_asked rfc limit store.old input.now) }
    ensures store { store.new ≡ avp_store rfc limit store.old input.now }
{
    tandrekily::tandrekily_avp(rfc, limit, input, store, res)
}

/// The same by an edition of the credit-control dictionary, 4006 or 8506.
#[unsafe(no_mangle)]
pub extern "C" fn tandrekily_avp_by(
    edition: u32,
    limit: usize,
    input: &[u8],
    store: &mut [u8],
    res: &mut [u64; RESULT],
)
    ensures res { res.new ≡ avp_result (avp_asked_by edition limit store.old input.now) }
    ensures store { store.new ≡ avp_store_by edition limit store.old input.now }
{
    tandrekily::tandrekily_avp_by(edition, limit, input, store, res)
}

/// The first AVP with this code at the top level of the message at the front of `input`.
#[unsafe(no_mangle)]
pub extern "C" fn tandrekily_find(input: &[u8], code: u32, res: &mut [u64; OUTLINE])
    ensures { res.new ≡ found_result (sought code input.now) }
{
    tandrekily::tandrekily_find(input, code, res)
}

/// The AVP at `place` of a message, and the place past it.
#[unsafe(no_mangle)]
pub extern "C" fn tandrekily_next(message: &[u8], place: usize, res: &mut [u64; OUTLINE]) -> usize
    ensures place { result ≡ (step_at message.now place).place }
    ensures res { res.new ≡ step_result (step_at message.now place) }
{
    tandrekily::tandrekily_next(message, place, res)
}

/// Writes the message of a table of records, whose data are in `pool`, to the front of `out`.
#[unsafe(no_mangle)]
pub extern "C" fn tandrekily_write(
    flags: u8,
    code: u32,
    app_id: u32,
    hop_id: u32,
    end_id: u32,
    table: &[u8],
    pool: &[u8],
    out: &mut [u8],
    res: &mut [u64; RESULT],
)
    ensures res { res.new ≡ write_result flags code app_id hop_id end_id table.now pool.now out.old }
    ensures out { out.new ≡ write_output flags code app_id hop_id end_id table.now pool.now out.old }
{
    tandrekily::tandrekily_write(flags, code, app_id, hop_id, end_id, table, pool, out, res)
}

/// Moves a table to where it stands behind another run, of so many bytes (a message's are its length less 20) and records.
#[unsafe(no_mangle)]
pub extern "C" fn tandrekily_shift(
    table: &mut [u8],
    bytes: usize,
    records: usize,
    res: &mut [u64; RESULT],
)
    ensures res { res.new ≡ shifted_result (shift_answer bytes records table.old) }
    ensures table { table.new ≡ table_after bytes records (shift_answer bytes records table.old) table.old }
{
    tandrekily::tandrekily_shift(table, bytes, records, res)
}

/// Is the text well-formed UTF-8 (RFC 3629)?
#[unsafe(no_mangle)]
pub extern "C" fn tandrekily_is_utf8(text: &[u8]) -> bool
    ensures { result ≡ well_formed text.now }
{
    tandrekily::tandrekily_is_utf8(text)
}

/// The length in bytes of the text's longest prefix that is well-formed UTF-8 (RFC 3629): its own length where it is well-formed.
#[unsafe(no_mangle)]
pub extern "C" fn tandrekily_utf8(text: &[u8]) -> usize
    ensures { result ≡ valid_up_to text.now }
{
    tandrekily::tandrekily_utf8(text)
}

/// A Time of the RFC reading in Unix seconds, from 1968-01-20 03:14:08 to 2104-02-26 09:42:23 UTC.
#[unsafe(no_mangle)]
pub extern "C" fn tandrekily_unix_seconds(time: u32) -> i64
    ensures { result ≡ unix_seconds time }
{
    tandrekily::tandrekily_unix_seconds(time)
}

/// The number behind the value of an Integer32 or an Enumerated.
#[unsafe(no_mangle)]
pub extern "C" fn tandrekily_integer32(bits: u32) -> i32
    ensures { result ≡ signed 32 bits }
{
    tandrekily::tandrekily_integer32(bits)
}

/// The number behind the value of an Integer64.
#[unsafe(no_mangle)]
pub extern "C" fn tandrekily_integer64(bits: u64) -> i64
    ensures { result ≡ signed 64 bits }
{
    tandrekily::tandrekily_integer64(bits)
}

/// How one Unit-Value stands to another: less is -1, equal 0, greater 1. The answer's number is returned.
#[unsafe(no_mangle)]
pub extern "C" fn tandrekily_compare(
    digits: i64,
    exponent: i32,
    other_digits: i64,
    other_exponent: i32,
    order: &mut i32,
) -> u8
    ensures number { result ≡ number_shown (compared_given digits exponent other_digits other_exponent) }
    ensures order { order.new ≡ order_shown (compared_given digits exponent other_digits other_exponent) order.old }
{
    tandrekily::tandrekily_compare(digits, exponent, other_digits, other_exponent, order)
}
