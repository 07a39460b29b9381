// Writes the AVPs of a table that is known to keep the rules and to fit: the run and the AVP call each other in turn.
ghost use Rattle.std.specs.Prelude.{◌≡◌, ◌≤◌, length};
ghost use Rattle.octets.specs.Octets.{Put};
ghost use Rattle.record.specs.Record.{record_size};
ghost use Rattle.record.specs.Table.{entry_at};
ghost use Rattle.rfc6733.specs.Writer.{avp_bytes, data_in};
ghost use Rattle.round_trip.specs.Tables.{run, one};
ghost use Rattle.writer.specs.Emitting.{LeafRoom, Ready, Done};

use record::Record;
use record::kinds::GROUPED;
use rules::header_size;

// How many records were taken, and the bytes of their AVPs.
#[derive(Clone, Copy)]
pub(super) struct Taken {
    pub records: usize,
    pub size: usize,
}

// Puts the AVP of a record that is no group, with its data from `pool`, and answers its size.
fn emit_leaf(r: Record, pool: &[u8], out: &mut [u8]) -> usize
    requires { LeafRoom r pool.now (length out.old) }
    ensures { Put result (avp_bytes r (data_in pool.now r)) out.old out.new }
{
    let header_size = header_size(r);
    let length = r.length as usize;
    let size = length + r.padding as usize;
    let from = r.place as usize;
    let to = from + (length - header_size);
    heads::put_head(r, r.length, &mut out[..header_size]);
    body::copy(&pool[from..to], &mut out[header_size..length]);
    body::put_padding(r.pads, &mut out[length..size]);
    size
}

// Puts the run that `table` starts with, its records at `depth` with their members.
#[cycle(emit_avp_emit_run)]
pub(super) fn emit_run(table: &[u8], pool: &[u8], depth: u8, out: &mut [u8]) -> Taken
    requires { Ready (run depth table.now) depth table.now pool.now (length out.old) }
    ensures { Done (run depth table.now) pool.now result out.old out.new }
{
    let mut records: usize = 0;
    let mut size: usize = 0;
    while records < table.len() / Record::SIZE {
        let at = records * Record::SIZE;
        let r = Record::get(&table[at..at + Record::SIZE]);
        if r.depth < depth {
            return Taken { records, size };
        }
        let t = emit_avp(r, &table[at..], pool, &mut out[size..]);
        records += t.records;
        size += t.size;
    }
    Taken { records, size }
}

// Puts the record `r` that `table` starts with. The members of a group go into the part of the output after its header,
// which is put when their size is known.
#[cycle(emit_avp_emit_run)]
fn emit_avp(r: Record, table: &[u8], pool: &[u8], out: &mut [u8]) -> Taken
    requires r_value { (r ≡ entry_at table.now) × (record_size ≤ length table.now) }
    requires ready { Ready (one table.now) r.depth table.now pool.now (length out.old) }
    ensures { Done (one table.now) pool.now result out.old out.new }
{
    if r.kind == GROUPED {
        let header_size = header_size(r);
        let members = emit_run(
            &table[Record::SIZE..],
            pool,
            r.depth + 1,
            &mut out[header_size..],
        );
        let length = header_size + members.size;
        heads::put_head(r, length as u32, &mut out[..header_size]);
        return Taken {
            records: 1 + members.records,
            size: length,
        };
    }
    let size = emit_leaf(r, pool, out);
    Taken { records: 1, size }
}
