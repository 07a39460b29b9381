// The writer: from header fields, a table of records and the bytes that its places point into, to a message.
// Everything is checked and measured before the first byte is written, so a refusal has changed none.
#![tactic(auto)]

mod emit;

ghost use Rattle.std.specs.Prelude.{◌≡◌, length};
ghost use Rattle.refusal.specs.Answer.{answer_of};
ghost use Rattle.header.specs.Parsed.{header_as};
ghost use Rattle.rfc6733.specs.Writer.{written, header_with};
ghost use Rattle.writer.specs.Answers.{fields_as, output_after};

use header::Header;
use refusal::Refusal;

/// The header fields of a message to be written; the version is 1 and the length is computed.
#[derive(Clone, Copy, Debug, PartialEq, Eq)]
pub struct Fields {
    pub flags: u8,
    pub code: u32,
    pub app_id: u32,
    pub hop_id: u32,
    pub end_id: u32,
}

impl Fields {
    // The header of a message of `n` bytes.
    #[tactic(auto, unfolding(header::specs::Parsed::header_as, crate::specs::Answers::fields_as))]
    fn header(self, n: u32) -> Header
        ensures { header_as result ≡ header_with 1 (fields_as self) n }
    {
        Header {
            version: Header::VERSION,
            length: n,
            flags: self.flags,
            code: self.code,
            app_id: self.app_id,
            hop_id: self.hop_id,
            end_id: self.end_id,
        }
    }
}

/// Writes the message of a table to the front of `out`, and answers how many bytes. The records' data stand in `pool`.
pub fn write(fields: Fields, table: &[u8], pool: &[u8], out: &mut [u8]) -> Result<usize, Refusal>
    ensures answer { answer_of result ≡ written (fields_as fields) table.now pool.now (length out.old) }
    ensures out { out.new ≡ output_after (fields_as fields) table.now pool.now out.old result }
{
    let total = writable::answer(fields.code, table, pool.len(), out.len())?;
    emit::emit_run(table, pool, 1, &mut out[Header::SIZE..]);
    heads::put_header(fields.header(total as u32), &mut out[..Header::SIZE]);
    Ok(total)
}
