// Decoding one AVP alone, at depth 1: from a lent slice to records in a lent store, error flags, counts and its padded size.
// The limit and the header are tested here; `avps` reads the AVP, and writes nothing until everything is known to fit.
#![tactic(auto)]

ghost use Rattle.std.specs.Prelude.{◌≡◌, true};
ghost use Rattle.rfc6733.specs.CreditControl.{edition_of};
ghost use Rattle.rfc6733.specs.Decoder.{allowed, avp_alone};
ghost use Rattle.rfc6733.specs.Editions.{avp_alone_by};
ghost use Rattle.record.specs.Store.{room};
ghost use Rattle.attribute.specs.Attributes.{dictionary};
ghost use Rattle.attribute.specs.ByTable.{dictionary_of};
ghost use Rattle.avps.specs.Answers.{answer_of};
ghost use Rattle.avp_alone.specs.Answers.{Complete, store_after_avp};

use attribute::{Dictionary, Reading};
use avps::Counts;
use editions::Edition;
use refusal::Refusal;

// An AVP that is complete.
fn parse_one(
    d: Dictionary<'_>,
    limit: usize,
    size: usize,
    input: &[u8],
    store: &mut [u8],
) -> Result<Counts, Refusal>
    requires limit_value { allowed limit ≡ true }
    requires complete { Complete size input.now }
    ensures answer { answer_of result ≡ avp_alone (dictionary_of d.entry) limit (room store.old) input.now }
    ensures store { store.new ≡ store_after_avp (dictionary_of d.entry) input.now store.old result }
{
    avps::parse_avps(d, limit, &input[..size], 0, store)
}

// One AVP, by a dictionary.
fn parse_avp_in(
    d: Dictionary<'_>,
    limit: usize,
    input: &[u8],
    store: &mut [u8],
) -> Result<Counts, Refusal>
    ensures answer { answer_of result ≡ avp_alone (dictionary_of d.entry) limit (room store.old) input.now }
    ensures store { store.new ≡ store_after_avp (dictionary_of d.entry) input.now store.old result }
{
    if !count::allowed(limit) {
        return Err(Refusal::BadDepth);
    }
    let a = front::parse(input)?;
    parse_one(d, limit, a.size, input, store)
}

/// Decodes the one AVP at the front of `input`, at depth 1, into records in `store`. Accepted, its length is its padded size.
pub fn parse_avp(
    reading: Reading,
    limit: usize,
    input: &[u8],
    store: &mut [u8],
) -> Result<Counts, Refusal>
    ensures answer { answer_of result ≡ avp_alone (dictionary reading) limit (room store.old) input.now }
    ensures store { store.new ≡ store_after_avp (dictionary reading) input.now store.old result }
{
    let kinds = attribute::kind_table(reading);
    parse_avp_in(reading.dictionary(&kinds), limit, input, store)
}

/// The same by an edition of the credit-control dictionary, 4006 or 8506.
pub fn parse_avp_by(
    edition: u32,
    limit: usize,
    input: &[u8],
    store: &mut [u8],
) -> Result<Counts, Refusal>
    ensures answer { answer_of result ≡ avp_alone_by edition limit (room store.old) input.now }
    ensures store { store.new ≡ store_after_avp (edition_of edition) input.now store.old result }
{
    let Some(chosen) = Edition::by_number(edition) else {
        return Err(editions::no_edition(limit));
    };
    let kinds = chosen.kind_table();
    parse_avp_in(Reading::Rfc.dictionary(&kinds), limit, input, store)
}
