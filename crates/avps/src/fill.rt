// Fills a store with the records of a run that is known to tile and to fit: the run, the AVP and the value call each other in turn.
ghost use Rattle.std.specs.Prelude.{◌≡◌, true, not, ◌-◌, ◌≤◌, ◌<◌, length, eqb};
ghost use Rattle.octets.specs.Run.{tree, tiles};
ghost use Rattle.flags.specs.Flags.{join, flag, non_zero_reserved, non_zero_padding};
ghost use Rattle.record.specs.Parents.{top_level};
ghost use Rattle.rfc6733.specs.Avp.{Exact, avp_reserved};
ghost use Rattle.rfc6733.specs.Records.{avps};
ghost use Rattle.rfc6733.specs.Entered.{entered};
ghost use Rattle.front.specs.Front.{avp_of};
ghost use Rattle.attribute.specs.ByTable.{dictionary_of};
ghost use Rattle.avps.specs.Fill.{Room, Tiled, Placed, own_record, depth_at, group_before, RunRecorded, ValueRead};

use super::known;
use attribute::Dictionary;
use avp::AVP;
use flags::ErrorFlags;
use record::Record;
use record::kinds::{GROUPED, UNHANDLED};
use value::Value;

// How many records, and their error flags joined.
#[derive(Clone, Copy)]
pub(super) struct Ran {
    pub records: usize,
    pub errors: u8,
}

// What an AVP's data are, and how many records its members have.
#[derive(Clone, Copy)]
pub(super) struct Valued {
    pub kind: u8,
    pub number: u64,
    pub errors: u8,
    pub records: usize,
}

// The flags of reserved bits and of padding.
fn own_errors(a: AVP, pads: u32) -> u8
    ensures { result ≡ join (flag (not (eqb (avp_reserved a.flags) 0)) non_zero_reserved) (flag (not (eqb pads 0)) non_zero_padding) }
{
    flags::join(
        flags::raised(a.get_reserved() != 0, ErrorFlags::NonZeroReserved as u8),
        flags::raised(pads != 0, ErrorFlags::NonZeroPadding as u8),
    )
}

// The record of an AVP, which stands at `place`, before its value is known: with no kind, no errors and no value.
fn own_record(a: AVP, place: usize, left: usize, pads: u32, parent: u32) -> Record
    requires { Placed a place left }
    ensures { result ≡ own_record a place (depth_at left) pads parent }
{
    Record {
        code: a.code,
        flags: a.flags,
        length: a.length as u32,
        vendor: a.vendor_id,
        place: (place + a.header_size()) as u32,
        depth: (AVP::MOST_DEPTH + 1 - left) as u8,
        kind: UNHANDLED,
        errors: 0,
        padding: (a.size - a.length) as u8,
        pads,
        value: 0,
        parent,
    }
}

// The group of a run stands right before its first member. A run whose first record is the first of all has none.
fn group_before(first: usize) -> u32
    requires { first ≤ top_level }
    ensures { result ≡ group_before first }
{
    if first == 0 {
        return Record::TOP_LEVEL;
    }
    (first - 1) as u32
}

// The records of the run `s`, which stands at `place` of the input; the first has the index `first`. Of the levels `left` remain,
// its own among them. Where `whole` says so every group tiles, and none is asked.
#[cycle(read_avp_read_run_read_value)]
pub(super) fn read_run(
    d: Dictionary<'_>,
    whole: bool,
    s: &[u8],
    place: usize,
    first: usize,
    left: usize,
    store: &mut [u8],
) -> Ran
    requires s_value { tiles (tree (avps (dictionary_of d)) s.now) ≡ true }
    requires room { Room whole (tree (avps (dictionary_of d)) s.now) place (length s.now) first left (length store.old) }
    ensures { RunRecorded (dictionary_of d.entry) s.now place (group_before first) first left result store.old store.new }
{
    let parent = group_before(first);
    let mut at: usize = 0;
    let mut n: usize = 0;
    let mut errors: u8 = 0;
    while at < s.len() {
        let a = known::avp(&s[at..]);
        let next = at + a.size;
        let one = read_avp(
            d,
            whole,
            &s[at..next],
            a,
            place + at,
            first + n,
            parent,
            left,
            &mut store[n * Record::SIZE..],
        );
        n += one.records;
        errors = flags::join(errors, one.errors);
        at = next;
    }
    Ran { records: n, errors }
}

// The records of the AVP `a`, whose own bytes are `s`: its own, which has an index and a parent, and its members' after it.
#[cycle(read_avp_read_run_read_value)]
fn read_avp(
    d: Dictionary<'_>,
    whole: bool,
    s: &[u8],
    a: AVP,
    place: usize,
    index: usize,
    parent: u32,
    left: usize,
    store: &mut [u8],
) -> Ran
    requires a_value { (a ≡ avp_of s.now) × Exact s.now }
    requires room { Room whole (tree (avps (dictionary_of d)) s.now) place (length s.now) index left (length store.old) }
    ensures { RunRecorded (dictionary_of d.entry) s.now place parent index left result store.old store.new }
{
    let from = a.header_size();
    let to = a.length;
    let pads = known::pads(s, a);
    let own = own_errors(a, pads);
    // before the value, so that its fields need not live through that
    own_record(a, place, left, pads, parent).put(&mut store[..Record::SIZE]);
    let value = read_value(
        d,
        whole,
        a.code,
        a.vendor_id,
        &s[from..to],
        place + from,
        index + 1,
        left,
        &mut store[Record::SIZE..],
    );
    let errors = flags::join(own, value.errors);
    Record::put_found(&mut store[..Record::SIZE], value.kind, errors, value.number);
    Ran {
        records: 1 + value.records,
        errors,
    }
}

// The value of an AVP's data, which stand at `place`, and the records of its members, which are one level deeper and the first of
// which has the index `first`.
#[cycle(read_avp_read_run_read_value)]
fn read_value(
    d: Dictionary<'_>,
    whole: bool,
    code: u32,
    vendor: u32,
    data: &[u8],
    place: usize,
    first: usize,
    left: usize,
    store: &mut [u8],
) -> Valued
    requires left_nonzero { (0 < left) × Tiled whole (dictionary_of d) code vendor «data».now }
    requires room { Room whole (entered (dictionary_of d) code vendor «data».now) place (length «data».now) first (left - 1) (length store.old) }
    ensures { ValueRead d.entry code vendor «data».now place first left result store.old store.new }
{
    let read = Value::new_known(d.families, whole, d.kind(code, vendor), data);
    let value = read.value;
    let kind = value.kind();
    if kind == GROUPED {
        // parts, since a slice that is passed on whole is kept in memory
        let members = read_run(d, whole, &data[..], place, first, left - 1, store);
        return Valued {
            kind,
            number: 0,
            errors: members.errors,
            records: members.records,
        };
    }
    Valued {
        kind,
        number: value.number(),
        errors: read.errors,
        records: 0,
    }
}
