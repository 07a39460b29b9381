// The dump's text (docs/FORMAT.md, 9): a message as lines of decimal numbers, or its refusal.
// The text is put into a lent array; this crate reads and writes no files.
#![tactic(auto)]

ghost use Rattle.std.specs.Prelude.{◌≡◌, [], ◌∷◌, ◌++◌, ◌*◌, ◌≤◌, ◌<◌, length};
ghost use Rattle.io.specs.Counts.{IsPrefixLen};
ghost use Rattle.octets.specs.Octets.{over, Put};
ghost use Rattle.record.specs.Record.{record_size, record_at};
ghost use Rattle.rfc6733.specs.Dump.{record_line, decimal, line, dumped, refusal_text};
ghost use Rattle.diameter.specs.Answers.{message_as};
ghost use Rattle.lines.specs.Text.{records_text, message_text};

use attribute::Reading;
use diameter::Message;
use record::Record;
use refusal::Refusal;

/// How many bytes of input are looked at.
pub const INPUT: usize = 32768;

/// How many records a message may have.
pub const RECORDS: usize = 1024;

/// How many bytes a line takes at most: 67 digits, and a byte after each of 8 numbers.
pub const LINE: usize = 75;

/// How many bytes the text takes at most.
pub const SIZE: usize = (RECORDS + 1) * LINE;

const MOST_DIGITS: usize = 20;

// Puts a number in decimal, and a byte after it.
#[tactic(auto, using(crate::proofs::Puts::number_put), unfolding(octets::specs::Octets::over))]
fn put_number(n: u64, after: u8, out: &mut [u8]) -> usize
    requires { length (decimal n) < length out.old }
    ensures { Put result (decimal n ++ (after ∷ [])) out.old out.new }
{
    let mut digits = [0u8; MOST_DIGITS];
    let size = io::decimal(n, &mut digits);
    out[..size].copy_from_slice(&digits[..size]);
    out[size] = after;
    size + 1
}

// Puts a line of numbers.
fn put_line(numbers: &[u64], out: &mut [u8]) -> usize
    requires not_empty { 1 ≤ length numbers.now }
    requires fits { length (line numbers.now) ≤ length out.old }
    ensures { Put result (line numbers.now) out.old out.new }
{
    let [others @ .., last] = numbers else {
        unreachable!()
    };
    let mut at = 0;
    for n in others {
        at += put_number(*n, b' ', &mut out[at..]);
    }
    at + put_number(*last, b'\n', &mut out[at..])
}

// Puts the line of the record at the front of a table.
fn put_record(table: &[u8], out: &mut [u8]) -> usize
    requires { length (line (record_line (record_at table.now))) ≤ length out.old }
    ensures { Put result (line (record_line (record_at table.now))) out.old out.new }
{
    let r = Record::read(table);
    let numbers = [
        r.depth as u64,
        r.code as u64,
        r.vendor as u64,
        r.kind as u64,
        r.errors as u64,
        r.length as u64,
        r.value,
        r.parent as u64,
    ];
    put_line(&numbers, out)
}

// Puts a line for each of the first records of a table.
fn put_records(table: &[u8], records: usize, out: &mut [u8]) -> usize
    requires stored { records * record_size ≤ length table.now }
    requires fits { length (records_text records table.now) ≤ length out.old }
    ensures { Put result (records_text records table.now) out.old out.new }
{
    let mut at = 0;
    for row in table.chunks_exact(Record::SIZE).take(records) {
        at += put_record(row, &mut out[at..]);
    }
    at
}

// Puts the lines of a message that was accepted.
#[tactic(auto, unfolding(diameter::specs::Answers::message_as))]
fn put_message(m: Message, table: &[u8], out: &mut [u8]) -> usize
    requires stored { m.records * record_size ≤ length table.now }
    requires fits { length (message_text (message_as m).counts table.now) ≤ length out.old }
    ensures { Put result (message_text (message_as m).counts table.now) out.old out.new }
{
    let numbers = [
        m.length as u64,
        m.errors as u64,
        m.records as u64,
        m.tried as u64,
    ];
    let at = put_line(&numbers, out);
    at + put_records(table, m.records, &mut out[at..])
}

// Puts the line of a refusal.
fn put_refusal(why: Refusal, out: &mut [u8]) -> usize
    requires { length (refusal_text why) ≤ length out.old }
    ensures { Put result (refusal_text why) out.old out.new }
{
    let numbers = [why.number() as u64, why.amount() as u64];
    let word = b"refused ";
    let at = word.len();
    out[..at].copy_from_slice(word);
    at + put_line(&numbers, &mut out[at..])
}

/// Puts the dump of `input` at the front of `out`, and answers its size.
pub fn dump(input: &[u8], out: &mut [u8; SIZE]) -> usize
    ensures text { out.new ≡ over (dumped input.now) out.old }
    ensures size { result ≡ length (dumped input.now) }
    ensures within { IsPrefixLen result out.new }
{
    let mut store = [0u8; RECORDS * Record::SIZE];
    let front = INPUT.min(input.len());
    match diameter::parse(
        Reading::Sawp,
        diameter::MOST_DEPTH,
        &input[..front],
        &mut store,
    ) {
        Ok(m) => put_message(m, &store, out),
        Err(why) => put_refusal(why, out),
    }
}
