// Counting a run before anything is written: does it tile, how many records has it, how many headers are tried?
// This crate looks at headers and never at values, and writes nothing. The depth limit bounds how deep it calls itself.
#![tactic(auto)]

ghost use Rattle.std.specs.Prelude.{◌≡◌, true};
ghost use Rattle.octets.specs.Run.{tree};
ghost use Rattle.rfc6733.specs.Records.{avps};
ghost use Rattle.rfc6733.specs.Avp.{payload, complete};
ghost use Rattle.rfc6733.specs.Decoder.{allowed};
ghost use Rattle.front.specs.Front.{avp_of};
ghost use Rattle.attribute.specs.ByTable.{dictionary_of};
ghost use Rattle.refusal.specs.Answer.{answer_of};
ghost use Rattle.count.specs.Counts.{level_of, count_of};

use attribute::Dictionary;
use avp::AVP;
use record::kinds::GROUPED;
use refusal::Refusal;

/// How many records a run has, and how many headers are tried.
#[derive(Clone, Copy, Debug, PartialEq, Eq)]
pub struct Sums {
    pub records: usize,
    pub tried: usize,
}

// What the levels that are left hold of a run.
#[derive(Clone, Copy)]
struct Level {
    tiles: bool,
    records: usize,
    tried: usize,
}

/// Is the depth limit 1..64?
pub fn allowed(limit: usize) -> bool
    ensures { result ≡ allowed limit }
{
    if limit < 1 {
        return false;
    }
    limit <= AVP::MOST_DEPTH
}

/// Counts the run `s` by a dictionary. Headers may be tried on `limit` levels, its own among them.
pub fn count_run(d: Dictionary<'_>, s: &[u8], limit: usize) -> Result<Sums, Refusal>
    ensures { answer_of result ≡ count_of limit (tree (avps (dictionary_of d.entry)) s.now) }
{
    if !allowed(limit) {
        return Err(Refusal::BadDepth);
    }
    let Some(level) = count_level(d, s, limit) else {
        // NotTiled comes first
        if !front::tiles(s) {
            return Err(Refusal::NotTiled);
        }
        return Err(Refusal::TooDeep);
    };
    if !level.tiles {
        return Err(Refusal::NotTiled);
    }
    Ok(Sums {
        records: level.records,
        tried: level.tried,
    })
}

// Counts the run `s`. Headers may be tried on so many levels as are left, its own among them; where one is tried deeper there is no count.
#[cycle(count_group_count_level)]
fn count_level(d: Dictionary<'_>, s: &[u8], left: usize) -> Option<Level>
    ensures { result ≡ level_of left (tree (avps (dictionary_of d.entry)) s.now) }
{
    let mut records: usize = 0;
    let mut tried: usize = 0;
    let mut rest = s;
    while 0 < rest.len() {
        if left == 0 {
            return None;
        }
        tried += 1;
        let Some(a) = front::first_avp(rest) else {
            return Some(Level {
                tiles: false,
                records,
                tried,
            });
        };
        records += 1;
        if d.kind(a.code, a.vendor_id) == GROUPED {
            let members = count_group(d, rest, a, left - 1)?;
            // A group that does not tile has a record, and none for its members.
            if members.tiles {
                records += members.records;
            }
            tried += members.tried;
        }
        rest = &rest[a.size..];
    }
    Some(Level {
        tiles: true,
        records,
        tried,
    })
}

// Counts the members of the group `a`, which is at the front of `s`.
#[cycle(count_group_count_level)]
fn count_group(d: Dictionary<'_>, s: &[u8], a: AVP, left: usize) -> Option<Level>
    requires { (a ≡ avp_of s.now) × (complete s.now ≡ true) }
    ensures { result ≡ level_of left (tree (avps (dictionary_of d.entry)) (payload s.now)) }
{
    let from = a.header_size();
    let to = a.length;
    count_level(d, &s[from..to], left)
}
