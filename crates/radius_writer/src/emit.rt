// Writes the attributes of a table that is known to keep the rules and to fit.
ghost use Rattle.std.specs.Prelude.{◌≡◌};
ghost use Rattle.octets.specs.Octets.{over};
ghost use Rattle.record.specs.Table.{table_of};
ghost use Rattle.rfc2865.specs.Writer.{attribute_bytes, run_bytes};
ghost use Rattle.radius_writer.specs.Emitting.{Ready, AllReady};

use record::Record;
use rfc2865::attribute::HEADER_SIZE;

// Puts the attribute of a record, with its data from `pool`.
fn emit_attribute(r: Record, pool: &[u8], out: &mut [u8])
    requires { Ready r pool.now out.old }
    ensures { out.new ≡ over (attribute_bytes pool.now r) out.old }
{
    let from = r.place as usize;
    let length = r.length as usize;
    let data = &pool[from..from + (length - HEADER_SIZE)];
    out[..HEADER_SIZE].copy_from_slice(&[r.code as u8, r.length as u8]);
    out[HEADER_SIZE..length].copy_from_slice(data);
}

// Puts the attributes of a table, one after the other.
pub(super) fn emit_run(table: &[u8], pool: &[u8], out: &mut [u8])
    requires { AllReady (table_of table.now) pool.now out.old }
    ensures { out.new ≡ over (run_bytes pool.now (table_of table.now)) out.old }
{
    let mut size: usize = 0;
    for row in table.chunks_exact(Record::SIZE) {
        let r = Record::get(row);
        emit_attribute(r, pool, &mut out[size..]);
        size += r.length as usize;
    }
}
