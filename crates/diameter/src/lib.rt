// Decoding a message: from a lent slice to a header, records in a lent store, error flags, counts and a length.
// The header and the limit are tested here; `avps` reads the AVPs, and writes nothing until everything is known to fit.
#![tactic(auto)]

ghost use Rattle.std.specs.Prelude.{◌≡◌, true, length};
ghost use Rattle.rfc6733.specs.CreditControl.{edition_of};
ghost use Rattle.rfc6733.specs.Decoder.{allowed, decoded};
ghost use Rattle.rfc6733.specs.Editions.{decoded_by};
ghost use Rattle.record.specs.Store.{room};
ghost use Rattle.attribute.specs.Attributes.{dictionary};
ghost use Rattle.attribute.specs.ByTable.{dictionary_of};
ghost use Rattle.diameter.specs.Answers.{Headed, answer_of, store_after};

use attribute::{Dictionary, Reading};
use avp::AVP;
use editions::Edition;
use header::{Header, Parsed};
use refusal::Refusal;

/// An accepted message: its header, error flags, number of records, headers tried and consumed length.
#[derive(Clone, Copy, Debug, PartialEq, Eq)]
pub struct Message {
    pub header: Header,
    pub errors: u8,
    pub records: usize,
    pub tried: usize,
    pub length: usize,
}

/// The largest depth limit.
pub const MOST_DEPTH: usize = AVP::MOST_DEPTH;

// A message whose header was accepted.
fn parse_body(
    d: Dictionary<'_>,
    limit: usize,
    head: Parsed,
    input: &[u8],
    store: &mut [u8],
) -> Result<Message, Refusal>
    requires limit_value { allowed limit ≡ true }
    requires headed { Headed head input.now }
    ensures answer { answer_of result ≡ decoded (dictionary_of d.entry) limit (room store.old) input.now }
    ensures store { store.new ≡ store_after (dictionary_of d.entry) input.now store.old result }
{
    let length = head.header.length as usize;
    let body = &input[Header::SIZE..length];
    let counts = avps::parse_avps(d, limit, body, Header::SIZE as u32, store)?;
    Ok(Message {
        header: head.header,
        errors: flags::join(head.errors, counts.errors),
        records: counts.records,
        tried: counts.tried,
        length,
    })
}

// A message, by a dictionary.
fn parse_in(
    d: Dictionary<'_>,
    limit: usize,
    input: &[u8],
    store: &mut [u8],
) -> Result<Message, Refusal>
    ensures answer { answer_of result ≡ decoded (dictionary_of d.entry) limit (room store.old) input.now }
    ensures store { store.new ≡ store_after (dictionary_of d.entry) input.now store.old result }
{
    if !count::allowed(limit) {
        return Err(Refusal::BadDepth);
    }
    let head = Header::parse(input)?;
    parse_body(d, limit, head, input, store)
}

/// Decodes the message at the front of `input` into records in `store`.
pub fn parse(
    reading: Reading,
    limit: usize,
    input: &[u8],
    store: &mut [u8],
) -> Result<Message, Refusal>
    ensures answer { answer_of result ≡ decoded (dictionary reading) limit (room store.old) input.now }
    ensures store { store.new ≡ store_after (dictionary reading) input.now store.old result }
{
    let kinds = attribute::kind_table(reading);
    parse_in(reading.dictionary(&kinds), limit, input, store)
}

/// The same by an edition of the credit-control dictionary, 4006 or 8506.
pub fn parse_by(
    edition: u32,
    limit: usize,
    input: &[u8],
    store: &mut [u8],
) -> Result<Message, Refusal>
    ensures answer { answer_of result ≡ decoded_by edition limit (room store.old) input.now }
    ensures store { store.new ≡ store_after (edition_of edition) input.now store.old result }
{
    let Some(chosen) = Edition::by_number(edition) else {
        return Err(editions::no_edition(limit));
    };
    let kinds = chosen.kind_table();
    parse_in(Reading::Rfc.dictionary(&kinds), limit, input, store)
}
