// A table moved to where it stands behind another in a joined run (docs/FORMAT.md, 12): places by bytes, parents by
// records. All records are looked at before the first is changed, so a refusal has changed none.
ghost use Rattle.std.specs.Prelude.{◌≡◌, true, ◌/◌, length};
ghost use Rattle.record.specs.Record.{record_size, record_at};
ghost use Rattle.record.specs.Table.{table_of};
ghost use Rattle.refusal.specs.Answer.{answer_of};
ghost use Rattle.rules.specs.Shifting.{fits_shifted, all_fit_shifted, shifted_row, rows_moved};
ghost use Rattle.rules.specs.Shifting.{shift_answer, table_after};

use record::Record;
use refusal::Refusal;

// The greatest number of four bytes, which a place and a parent have.
const MOST: u32 = 0xffff_ffff;

// Do place and parent still fit their four bytes? The parent at depth 1 is no index, and stays.
#[tactic(auto, unfolding(rfc6733::specs::Joining::shifted))]
fn fits(r: Record, bytes: usize, records: usize) -> bool
    ensures { result ≡ fits_shifted bytes records r }
{
    bytes <= (MOST - r.place) as usize && (r.depth == 1 || records <= (MOST - r.parent) as usize)
}

fn all_fit(table: &[u8], bytes: usize, records: usize) -> bool
    ensures { result ≡ all_fit_shifted bytes records (table_of table.now) }
{
    table
        .chunks_exact(Record::SIZE)
        .all(|row| fits(Record::get(row), bytes, records))
}

#[tactic(auto, unfolding(rfc6733::specs::Joining::shifted, record::specs::Table::entry_at, record::specs::Table::bare))]
fn shift_row(row: &mut [u8], bytes: usize, records: usize)
    requires { fits_shifted bytes records (record_at row.old) ≡ true }
    ensures { row.new ≡ shifted_row bytes records row.old }
{
    let r = Record::get(row);
    let place = bytes as u32 + r.place;
    if r.depth == 1 {
        Record::put_place_and_parent(row, place, r.parent);
    } else {
        Record::put_place_and_parent(row, place, records as u32 + r.parent);
    }
}

fn shift_rows(table: &mut [u8], bytes: usize, records: usize)
    requires { all_fit_shifted bytes records (table_of table.old) ≡ true }
    ensures { table.new ≡ rows_moved bytes records (length table.old / record_size) table.old }
{
    // By index, since of a row that `chunks_exact_mut` lends no proof knows what it holds afterwards.
    for index in 0..table.len() / Record::SIZE {
        let at = index * Record::SIZE;
        shift_row(&mut table[at..at + Record::SIZE], bytes, records);
    }
}

/// Moves every record of a table to where it stands behind the run before it, and answers how many there are. `bytes`
/// is that run's length, of a message its length less 20, and `records` is how many records that run has.
#[tactic(auto, unfolding(crate::specs::Shifting::shift_answer, crate::specs::Shifting::table_after))]
pub fn shift(table: &mut [u8], bytes: usize, records: usize) -> Result<usize, Refusal>
    ensures answer { answer_of result ≡ shift_answer bytes records table.old }
    ensures table { table.new ≡ table_after bytes records (answer_of result) table.old }
{
    let count = table.len() / Record::SIZE;
    if table.len() % Record::SIZE != 0 {
        return Err(Refusal::BadTable(count));
    }
    if !all_fit(table, bytes, records) {
        return Err(Refusal::TooLong);
    }
    shift_rows(table, bytes, records);
    Ok(count)
}
