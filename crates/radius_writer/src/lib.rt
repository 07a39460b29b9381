// The writer of RADIUS packets: from a header's fields, a table of records and the bytes that its places point into, to
// a packet. Everything is checked and measured before the first byte is written, so a refusal has changed none.
#![tactic(auto)]

mod emit;

ghost use Rattle.std.specs.Prelude.{◌≡◌, ◌≤◌, length};
ghost use Rattle.refusal.specs.Answer.{answer_of};
ghost use Rattle.octets.specs.Octets.{over};
ghost use Rattle.rfc2865.specs.Packet.{header_size};
ghost use Rattle.rfc2865.specs.Writer.{written, header_bytes};
ghost use Rattle.radius_writer.specs.Answers.{header_as, output_after};

use record::Record;
use refusal::Refusal;
use rfc2865::packet::{self, FRONT, HEADER, MOST};

/// The header's fields of a packet to be written; its length is computed.
#[derive(Clone, Copy, Debug, PartialEq, Eq)]
pub struct Fields {
    pub code: u8,
    pub identifier: u8,
    pub authenticator: [u8; Fields::AUTHENTICATOR],
}

impl Fields {
    pub const AUTHENTICATOR: usize = packet::AUTHENTICATOR;

    // Puts a packet's header, with its length.
    fn put(self, n: u32, out: &mut [u8])
        requires { header_size ≤ length out.old }
        ensures { out.new ≡ over (header_bytes (header_as self) n) out.old }
    {
        let [high, low] = octets::to_be_u16(n);
        out[..FRONT].copy_from_slice(&[self.code, self.identifier, high, low]);
        out[FRONT..HEADER].copy_from_slice(&self.authenticator);
    }
}

/// Writes the packet of a table to the front of `out`. The records' data stand in `pool`.
pub fn write(fields: Fields, table: &[u8], pool: &[u8], out: &mut [u8]) -> Result<usize, Refusal>
    ensures answer { answer_of result ≡ written (header_as fields) table.now pool.now (length out.old) }
    ensures out { out.new ≡ output_after (header_as fields) table.now pool.now out.old result }
{
    let kept = radius_rules::keepers(table, pool.len());
    if (kept < table.len() / Record::SIZE) | (table.len() % Record::SIZE != 0) {
        return Err(Refusal::BadTable(kept));
    }
    let size = radius_size::size_run(table, MOST - HEADER).ok_or(Refusal::TooLong)?;
    let total = HEADER + size;
    if out.len() < total {
        return Err(Refusal::NoRoom(total));
    }
    emit::emit_run(table, pool, &mut out[HEADER..]);
    fields.put(total as u32, out);
    Ok(total)
}
