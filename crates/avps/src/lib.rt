// Reading a run of AVPs: it is counted first, and where it tiles and fits, its records are put into a lent store.
// This crate knows no message. It writes nothing until everything is known to fit, so a refusal has changed no byte.
#![tactic(auto)]

mod fill;
mod known;

ghost use Rattle.std.specs.Prelude.{◌≡◌, true, length};
ghost use Rattle.octets.specs.Run.{tree, tiles};
ghost use Rattle.rfc6733.specs.Records.{avps};
ghost use Rattle.rfc6733.specs.Avp.{most_depth};
ghost use Rattle.record.specs.Store.{room};
ghost use Rattle.attribute.specs.ByTable.{dictionary_of};
ghost use Rattle.avps.specs.Fill.{Room, RunCleared};
ghost use Rattle.avps.specs.Answers.{answer_of, run_answer, store_after_run};

use attribute::Dictionary;
use avp::AVP;
use count::Sums;
use record::Record;
use refusal::Refusal;

/// An accepted run: its error flags, number of records, headers tried and length.
#[derive(Clone, Copy, Debug, PartialEq, Eq)]
pub struct Counts {
    pub errors: u8,
    pub records: usize,
    pub tried: usize,
    pub length: usize,
}

// Fills the store with the records of the run `s`, which stands at `place`, and with zero after them. Answers their error flags. Where
// `whole` says so every group tiles.
fn fill_store(d: Dictionary<'_>, whole: bool, s: &[u8], place: usize, store: &mut [u8]) -> u8
    requires s_value { tiles (tree (avps (dictionary_of d)) s.now) ≡ true }
    requires room { Room whole (tree (avps (dictionary_of d)) s.now) place (length s.now) 0 most_depth (length store.old) }
    ensures { RunCleared (dictionary_of d.entry) s.now place result store.old store.new }
{
    let ran = fill::read_run(d, whole, s, place, 0, AVP::MOST_DEPTH, store);
    let n = ran.records;
    record::clear(&mut store[n * Record::SIZE..]);
    ran.errors
}

/// Reads the run `s`, which stands at `place` of the input, by a dictionary, into records in `store`. Headers may be tried on `limit` levels.
/// A run that ends past the last place that a record can have is TooLong.
pub fn parse_avps(
    d: Dictionary<'_>,
    limit: usize,
    s: &[u8],
    place: u32,
    store: &mut [u8],
) -> Result<Counts, Refusal>
    ensures answer { answer_of result ≡ run_answer (dictionary_of d.entry) limit (room store.old) place s.now }
    ensures store { store.new ≡ store_after_run (dictionary_of d.entry) place s.now store.old result }
{
    let room = store.len() / Record::SIZE;
    let Sums { records, tried } = fits::count_fitting(d, limit, s, place, room)?;
    // as many records as headers tried: every group tiles (rfc6733/proofs/AllTile)
    let errors = fill_store(d, records == tried, s, place as usize, store);
    Ok(Counts {
        errors,
        records,
        tried,
        length: s.len(),
    })
}
