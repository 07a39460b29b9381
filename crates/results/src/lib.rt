// An answer as numbers, for callers of other languages: its number and amount, then what an acceptance returns. What an answer does not
// return is 0. This crate knows how the numbers stand, and nothing of how an answer comes about.
#![tactic(auto, unfolding(header::specs::Parsed::header_as, avps::specs::Answers::counts_as, diameter::specs::Answers::message_as))]

pub mod packets;

ghost use Rattle.std.specs.Prelude.{◌≡◌};
ghost use Rattle.refusal.specs.Answer.{answer_of};
ghost use Rattle.header.specs.Parsed as header;
ghost use Rattle.header.specs.Parsed.{header_as};
ghost use Rattle.avps.specs.Answers as avps;
ghost use Rattle.avps.specs.Answers.{counts_as};
ghost use Rattle.diameter.specs.Answers as diameter;
ghost use Rattle.results.specs.Results.{result_of, refusal, message_result, avp_result, written_result, shifted_result, outline_result, found_result, sign_of};

use avps::Counts;
use diameter::Message;
use header::{Header, Parsed};
use record::outline::Outline;
use refusal::Refusal;
use std::cmp::Ordering;

/// How many numbers a result has. include/tandrekily.h names them.
pub const RESULT: usize = 13;

/// How many numbers an outline's result has.
pub const OUTLINE: usize = 10;

const NO_COUNTS: Counts = Counts {
    errors: 0,
    records: 0,
    tried: 0,
    length: 0,
};

const NO_HEADER: Header = Header {
    version: 0,
    length: 0,
    flags: 0,
    code: 0,
    app_id: 0,
    hop_id: 0,
    end_id: 0,
};

const NO_OUTLINE: Outline = Outline {
    code: 0,
    flags: 0,
    length: 0,
    vendor: 0,
    place: 0,
    padding: 0,
    pads: 0,
};

fn lay(number: u64, amount: usize, counts: Counts, header: Header) -> [u64; RESULT]
    ensures { result ≡ result_of number amount (counts_as counts) (header_as header) }
{
    [
        number,
        amount as u64,
        counts.errors as u64,
        counts.records as u64,
        counts.tried as u64,
        counts.length as u64,
        header.version as u64,
        header.length as u64,
        header.flags as u64,
        header.code as u64,
        header.app_id as u64,
        header.hop_id as u64,
        header.end_id as u64,
    ]
}

fn refused(why: Refusal) -> [u64; RESULT]
    ensures { result ≡ refusal why }
{
    lay(why.number() as u64, why.amount(), NO_COUNTS, NO_HEADER)
}

/// What decoding a message answers.
pub fn of_message(d: Result<Message, Refusal>) -> [u64; RESULT]
    ensures { result ≡ message_result (diameter.answer_of d) }
{
    match d {
        Ok(m) => {
            let counts = Counts {
                errors: m.errors,
                records: m.records,
                tried: m.tried,
                length: m.length,
            };
            lay(0, 0, counts, m.header)
        }
        Err(why) => refused(why),
    }
}

/// What reading the header alone answers.
pub fn of_header(p: Result<Parsed, Refusal>) -> [u64; RESULT]
    ensures { result ≡ message_result (header.answer_of p) }
{
    match p {
        Ok(Parsed { header, errors }) => {
            let counts = Counts {
                errors,
                length: Header::SIZE,
                ..NO_COUNTS
            };
            lay(0, 0, counts, header)
        }
        Err(why) => refused(why),
    }
}

/// What decoding one AVP alone answers.
pub fn of_avp(d: Result<Counts, Refusal>) -> [u64; RESULT]
    ensures { result ≡ avp_result (avps.answer_of d) }
{
    match d {
        Ok(counts) => lay(0, 0, counts, NO_HEADER),
        Err(why) => refused(why),
    }
}

/// What writing a message answers: its total is the length.
pub fn of_written(w: Result<usize, Refusal>) -> [u64; RESULT]
    ensures { result ≡ written_result (answer_of w) }
{
    match w {
        Ok(total) => {
            let counts = Counts {
                length: total,
                ..NO_COUNTS
            };
            lay(0, 0, counts, NO_HEADER)
        }
        Err(why) => refused(why),
    }
}

/// What moving a table answers: its records.
pub fn of_shifted(s: Result<usize, Refusal>) -> [u64; RESULT]
    ensures { result ≡ shifted_result (answer_of s) }
{
    match s {
        Ok(records) => {
            let counts = Counts {
                records,
                ..NO_COUNTS
            };
            lay(0, 0, counts, NO_HEADER)
        }
        Err(why) => refused(why),
    }
}

fn lay_outline(number: u64, amount: usize, found: u64, o: Outline) -> [u64; OUTLINE]
    ensures { result ≡ outline_result number amount found o }
{
    [
        number,
        amount as u64,
        found,
        o.code as u64,
        o.flags as u64,
        o.length as u64,
        o.vendor as u64,
        o.place as u64,
        o.padding as u64,
        o.pads as u64,
    ]
}

/// What a search or a step answers.
pub fn of_found(f: Result<Option<Outline>, Refusal>) -> [u64; OUTLINE]
    ensures { result ≡ found_result (answer_of f) }
{
    match f {
        Ok(Some(o)) => lay_outline(0, 0, 1, o),
        Ok(None) => lay_outline(0, 0, 0, NO_OUTLINE),
        Err(why) => lay_outline(why.number() as u64, why.amount(), 0, NO_OUTLINE),
    }
}

/// How one Unit-Value stands to another: less is -1, equal 0, greater 1.
pub fn sign_of(o: Ordering) -> i32
    ensures { result ≡ sign_of o }
{
    o as i32
}
