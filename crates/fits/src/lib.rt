// Whether a run of AVPs can be read into a store: its places must fit a record, it must tile within the limit, and its records must have room.
// This crate counts, and writes nothing.
#![tactic(auto)]

ghost use Rattle.std.specs.Prelude.{◌≡◌};
ghost use Rattle.attribute.specs.ByTable.{dictionary_of};
ghost use Rattle.refusal.specs.Answer.{answer_of};
ghost use Rattle.fits.specs.Fitting.{fitting_of};

use attribute::Dictionary;
use count::Sums;
use record::Record;
use refusal::Refusal;

/// Counts the run `s`, which stands at `place` of the input, by a dictionary, if there is room for its records. Headers may be tried on
/// `limit` levels. A run that ends past the last place that a record can have is TooLong.
pub fn count_fitting(
    d: Dictionary<'_>,
    limit: usize,
    s: &[u8],
    place: u32,
    room: usize,
) -> Result<Sums, Refusal>
    ensures { answer_of result ≡ fitting_of (dictionary_of d.entry) limit room place s.now }
{
    if ((Record::LAST_PLACE - place) as usize) < s.len() {
        return Err(Refusal::TooLong);
    }
    let sums = count::count_run(d, s, limit)?;
    if room < sums.records {
        return Err(Refusal::NoRecords(sums.records));
    }
    Ok(sums)
}
