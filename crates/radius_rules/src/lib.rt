// The rules of a table of attributes (docs/FORMAT.md, 11.5): which record is the first to break one.
// This crate looks at records alone: it knows how many bytes their places may point into, and none of those bytes.
#![tactic(auto)]

ghost use Rattle.std.specs.Prelude.{◌≡◌};
ghost use Rattle.record.specs.Table.{table_of};
ghost use Rattle.rfc2865.specs.Writer.{keeps, keepers};
ghost use Rattle.radius_rules.specs.Rules.{is_fixed};

use record::Record;

/// A type and a length are a byte each (RFC 2865, section 5), and the header is both.
pub const HEADER_SIZE: u32 = rfc2865::attribute::HEADER_SIZE as u32;

const MOST_CODE: u32 = 255;

const MOST_LENGTH: u32 = 255;

// The fields that RADIUS has no use for are as the reader leaves them.
fn is_fixed(r: Record) -> bool
    ensures { result ≡ is_fixed r }
{
    r.depth == 1
        && r.flags == 0
        && r.vendor == 0
        && r.padding == 0
        && r.pads == 0
        && r.parent == Record::TOP_LEVEL
}

// The rules of a record, where so many bytes are there to point into.
#[tactic(auto, unfolding(rfc2865::specs::Writer::keeps))]
fn keeps(r: Record, available: usize) -> bool
    ensures { result ≡ keeps available r }
{
    r.code <= MOST_CODE
        && HEADER_SIZE <= r.length
        && r.length <= MOST_LENGTH
        && is_fixed(r)
        && r.place as usize + (r.length - HEADER_SIZE) as usize <= available
}

/// How many records keep the rules before the first that breaks one.
pub fn keepers(table: &[u8], available: usize) -> usize
    ensures { result ≡ keepers available (table_of table.now) }
{
    let mut kept: usize = 0;
    for row in table.chunks_exact(Record::SIZE) {
        let r = Record::get(row);
        if !keeps(r, available) {
            return kept;
        }
        kept += 1;
    }
    kept
}
