// Reading a run of RADIUS attributes (RFC 2865, section 5): it is counted first, and where it tiles and fits, its records
// are put into a lent store. This crate knows no packet. It writes nothing until everything is known to fit, so a refusal
// has changed no byte.
#![tactic(auto)]

ghost use Rattle.std.specs.Prelude.{◌≡◌, true, ◌≤◌, length};
ghost use Rattle.octets.specs.Run.{tree, items};
ghost use Rattle.record.specs.Record.{record_size};
ghost use Rattle.record.specs.Store.{room, stored};
ghost use Rattle.refusal.specs.Answer.{answer_of};
ghost use Rattle.rfc2865.specs.Attribute.{attributes};
ghost use Rattle.radius_attributes.specs.Answers.{count_of, run_records, run_answer};
ghost use Rattle.radius_attributes.specs.Fill.{Own, Put, Room, Cleared};

use record::Record;
use refusal::Refusal;
use rfc2865::attribute::HEADER_SIZE;

/// An accepted run: its error flags and number of records.
#[derive(Clone, Copy, Debug, PartialEq, Eq)]
pub struct Counts {
    pub errors: u8,
    pub records: usize,
}

// How many attributes cover `s` to its last byte, if they do.
fn count(s: &[u8]) -> Option<usize>
    ensures { result ≡ count_of (tree attributes s.now) }
{
    let mut records: usize = 0;
    let mut rest = s;
    while let [_, length, ..] = *rest {
        let length = length as usize;
        if (length < HEADER_SIZE) | (rest.len() < length) {
            return None;
        }
        rest = &rest[length..];
        records += 1;
    }
    // one byte left over has no length
    if rest.is_empty() { Some(records) } else { None }
}

// Puts the record of the attribute whose own bytes are `s` and which stands at `place`. Answers its error flags.
fn read_attribute(s: &[u8], place: usize, store: &mut [u8]) -> u8
    requires own { Own place s.now }
    requires record_size_in_bounds { record_size ≤ length store.old }
    ensures { Put s.now place result store.old store.new }
{
    let code = s[0];
    let value = radius_value::read(radius_value::types::kind(code), &s[HEADER_SIZE..]);
    Record {
        code: code as u32,
        flags: 0,
        length: s.len() as u32,
        vendor: 0,
        place: (place + HEADER_SIZE) as u32,
        depth: 1,
        kind: value.kind,
        errors: value.errors,
        padding: 0,
        pads: 0,
        value: value.number,
        parent: Record::TOP_LEVEL,
    }
    .put(store);
    value.errors
}

// Fills the store with so many records, those of the attributes that cover `s`, which stands at `place`, and with zero
// after them. Answers their error flags.
fn fill(s: &[u8], place: usize, records: usize, store: &mut [u8]) -> u8
    requires count { records ≡ length (items (tree attributes s.now)) }
    requires room { Room (tree attributes s.now) place (length s.now) (length store.old) }
    ensures { Cleared (tree attributes s.now) place result store.old store.new }
{
    let mut errors: u8 = 0;
    let mut rest = s;
    let mut at = place;
    for index in 0..records {
        // an attribute stands here for each record that is left, and its second byte is its length
        let (own, others) = rest.split_at(rest[1] as usize);
        let raised = read_attribute(own, at, &mut store[index * Record::SIZE..]);
        errors = flags::join(errors, raised);
        at += own.len();
        rest = others;
    }
    store[records * Record::SIZE..].fill(0);
    errors
}

/// Reads the attributes that cover `s`, which stands at `place` of the input, into records in `store`, with zero after
/// them. A run that ends past the last place that a record can have is TooLong.
#[tactic(auto, using(rfc2865::proofs::Tried::records_length), unfolding(record::specs::Store::stored))]
pub fn parse_attributes(s: &[u8], place: u32, store: &mut [u8]) -> Result<Counts, Refusal>
    ensures answer { answer_of result ≡ run_answer (room store.old) place s.now }
    ensures store { store.new ≡ stored (answer_of result) (run_records place s.now) store.old }
{
    if ((Record::LAST_PLACE - place) as usize) < s.len() {
        return Err(Refusal::TooLong);
    }
    let records = count(s).ok_or(Refusal::NotTiled)?;
    if store.len() / Record::SIZE < records {
        return Err(Refusal::NoRecords(records));
    }
    let errors = fill(s, place as usize, records, store);
    Ok(Counts { errors, records })
}
