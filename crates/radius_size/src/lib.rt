// Measures the attributes of a table.
#![tactic(auto)]

ghost use Rattle.std.specs.Prelude.{◌≡◌};
ghost use Rattle.record.specs.Table.{table_of};
ghost use Rattle.radius_size.specs.Sizing.{sized_of};

use record::Record;

/// How many bytes the attributes of a table take, if no more than `most`: the sum of the records' lengths.
pub fn size_run(table: &[u8], most: usize) -> Option<usize>
    ensures { result ≡ sized_of most (table_of table.now) }
{
    let mut size: usize = 0;
    for row in table.chunks_exact(Record::SIZE) {
        let length = Record::get(row).length as usize;
        if most - size < length {
            return None;
        }
        size += length;
    }
    Some(size)
}
