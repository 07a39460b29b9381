// The rules of a table (docs/FORMAT.md, 8.3): which record is the first to break one. If none does, how long AVPs get.
// The size of a group with all its members is worked out by recursion; so the members' depth and parent are at hand.
// This crate looks at records alone: it knows how many bytes their places may point into, and none of those bytes.
#![tactic(auto)]

pub mod shifting;

ghost use Rattle.std.specs.Prelude.{◌≡◌, ◌&&◌, ◌||◌, ◌-◌, ◌%◌, ◌^◌, min, eqb};
ghost use Rattle.flags.specs.Flags.{bit};
ghost use Rattle.refusal.specs.declared.Refusal.TheVariants.{BadTable};
ghost use Rattle.rfc6733.specs.Avp.{vendor_bit};
ghost use Rattle.record.specs.Table.{table_of};
ghost use Rattle.rfc6733.specs.Writer.{head_of, keeps_leaf, keeps};
ghost use Rattle.rules.specs.Checking.{too_many, checked_of, Checks};

use avp::AVP;
use record::Record;
use record::kinds::{GROUPED, TIME};
use refusal::Refusal;

/// The size of the header of the record's AVP.
#[tactic(auto, unfolding(rfc6733::specs::Writer::head_of))]
pub fn header_size(r: Record) -> usize
    ensures { result ≡ head_of r }
{
    AVP::header_size_of(r.flags)
}

fn keeps_vendor(r: Record) -> bool
    ensures { result ≡ (bit vendor_bit r.flags || eqb r.vendor 0) }
{
    AVP::vendor_specific_flag(r.flags) || r.vendor == 0
}

fn keeps_group(r: Record) -> bool
    ensures { result ≡ (eqb r.padding 0 && eqb r.pads 0) }
{
    r.padding == 0 && r.pads == 0
}

// The padding bytes past the count, as a number.
fn unused_padding(r: Record) -> u32
    ensures { result ≡ r.pads % 256 ^ (3 - r.padding) }
{
    match r.padding {
        0 => r.pads % 0x100_0000,
        1 => r.pads % 0x1_0000,
        2 => r.pads % 0x100,
        _ => 0,
    }
}

// The rules of a record that is no group, where so many bytes are there to point into.
#[tactic(auto, unfolding(rfc6733::specs::Writer::keeps_leaf, rfc6733::specs::Writer::stated_data))]
fn keeps_leaf(r: Record, available: usize) -> bool
    ensures { result ≡ keeps_leaf available r }
{
    let Some(size) = (r.length as usize).checked_sub(header_size(r)) else {
        return false;
    };
    r.place as usize + size <= available
        && r.padding as usize == AVP::padding(size)
        && unused_padding(r) == 0
}

// The rules of a record by itself, at whatever depth it has.
#[tactic(auto, unfolding(rfc6733::specs::Writer::keeps))]
fn keeps(r: Record, available: usize) -> bool
    ensures { result ≡ keeps r.depth available r }
{
    1 <= r.depth
        && r.depth as usize <= AVP::MOST_DEPTH
        && r.kind <= TIME
        && keeps_vendor(r)
        && if r.kind == GROUPED {
            keeps_group(r)
        } else {
            keeps_leaf(r, available)
        }
}

// No message has so many bytes, so a size is cut off there.
const TOO_MANY: usize = 0x100_0000;

fn capped(size: usize) -> usize
    ensures { result ≡ min size too_many }
{
    size.min(TOO_MANY)
}

/// A record breaks a rule: the first that does has this index.
#[derive(Clone, Copy, Debug, PartialEq, Eq)]
pub struct BadRecord(pub usize);

/// The records before it keep the rules.
impl From<BadRecord> for Refusal {
    ghost from_gives = { λ bad r. r ≡ BadTable bad.0 };

    fn from(bad: BadRecord) -> Refusal {
        Refusal::BadTable(bad.0)
    }
}

// Where a run ends, and how many bytes its AVPs take.
#[derive(Clone, Copy)]
struct Run {
    index: usize,
    size: usize,
}

// Checks and measures the run that starts with record `from`: records of one depth and one parent, each group with all
// its members. The run ends before a record that is less deep.
fn check_run(
    table: &[u8],
    from: usize,
    depth: u8,
    parent: usize,
    available: usize,
) -> Result<Run, BadRecord>
    ensures { Checks available from depth parent (table_of table.now) result }
{
    let mut index: usize = from;
    let mut size: usize = 0;
    while index < table.len() / Record::SIZE {
        let at = index * Record::SIZE;
        let r = Record::get(&table[at..at + Record::SIZE]);
        if r.depth < depth {
            return Ok(Run { index, size });
        }
        if depth < r.depth || r.parent as usize != parent || !keeps(r, available) {
            return Err(BadRecord(index));
        }
        if r.kind == GROUPED {
            let members = check_run(table, index + 1, depth + 1, index, available)?;
            index = members.index;
            size = capped(size + header_size(r) + members.size);
        } else {
            index += 1;
            size = capped(size + r.length as usize + r.padding as usize);
        }
    }
    Ok(Run { index, size })
}

/// Checks a table whose records point into so many bytes, and measures it: the bytes of all AVPs, 2^24 at the most.
#[tactic(auto, using(crate::proofs::Answered::answers))]
pub fn check(table: &[u8], available: usize) -> Result<usize, BadRecord>
    ensures { result ≡ checked_of available (table_of table.now) }
{
    let top_level = check_run(table, 0, 1, Record::TOP_LEVEL as usize, available)?;
    if top_level.index < table.len() / Record::SIZE {
        return Err(BadRecord(top_level.index));
    }
    Ok(top_level.size)
}
