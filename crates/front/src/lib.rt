// The AVP at the front of a slice, its padding, and whether AVPs tile.
// This crate knows an AVP's header and padding, and nothing of what its data mean.
#![tactic(auto)]

ghost use Rattle.std.specs.Prelude.{◌+◌, ◌≤◌, ◌≡◌, false, length};
ghost use Rattle.octets.specs.Octets.{be};
ghost use Rattle.rfc6733.specs.Avp.{flags, head_size, vendor, complete};
ghost use Rattle.rfc6733.specs.Records.{tiling};
ghost use Rattle.refusal.specs.Answer.{refused, answer_of};
ghost use Rattle.front.specs.Front.{first_of, parsed_of};

use avp::AVP;
use octets::at_hand;
use refusal::Refusal;

// Four bytes of `s` as a number.
fn word(s: &[u8], at: usize) -> u32
    requires { at + 4 ≤ length s.now }
    ensures { result ≡ be 4 s.now at }
{
    word::be_u32(&s[at..at + 4])
}

// Present only with the vendor bit.
fn vendor_id(s: &[u8]) -> u32
    requires { head_size (flags s.now) ≤ length s.now }
    ensures { result ≡ vendor s.now }
{
    if AVP::vendor_specific_flag(s[4]) {
        return word(s, 8);
    }
    0
}

// The first refusal, in the order in which the fields are read: the code, the flags, the length, the vendor, the padding.
fn refusal(s: &[u8]) -> Refusal
    requires { complete s.now ≡ false }
    ensures { refused result ≡ parsed_of s.now }
{
    let available = s.len();
    if available < AVP::CODE_SIZE {
        return Refusal::Incomplete(AVP::CODE_SIZE - available);
    }
    if available == AVP::CODE_SIZE {
        return Refusal::Incomplete(1);
    }
    if available < AVP::PRE_LENGTH_SIZE {
        return Refusal::Incomplete(AVP::PRE_LENGTH_SIZE - available);
    }
    let length = octets::be_u24(s[5], s[6], s[7]) as usize;
    if length < AVP::PRE_LENGTH_SIZE {
        return Refusal::BadLength;
    }
    if let Err(absent) = at_hand::length(length, available) {
        return Refusal::from(absent);
    }
    let header_size = AVP::header_size_of(s[4]);
    if length < header_size {
        return Refusal::BadLength;
    }
    Refusal::Incomplete(length + AVP::padding(length - header_size) - available)
}

/// The AVP at the front of `s`, if it is complete. Three tests tell.
pub fn first_avp(s: &[u8]) -> Option<AVP>
    ensures { result ≡ first_of s.now }
{
    let available = s.len();
    if available < AVP::PRE_LENGTH_SIZE {
        return None;
    }
    // A byte of flags, and three of the length (RFC 6733, section 4.1).
    let flags_length = word(s, 4);
    let flags = (flags_length / 0x100_0000) as u8;
    let length = (flags_length % 0x100_0000) as usize;
    let header_size = AVP::header_size_of(flags);
    if length < header_size {
        return None;
    }
    let size = length + AVP::padding(length - header_size);
    if available < size {
        return None;
    }
    Some(AVP {
        code: word(s, 0),
        flags,
        length,
        vendor_id: vendor_id(s),
        size,
    })
}

/// The AVP at the front of `s`, or the first refusal.
pub fn parse(s: &[u8]) -> Result<AVP, Refusal>
    ensures { answer_of result ≡ parsed_of s.now }
{
    match first_avp(s) {
        Some(a) => Ok(a),
        None => Err(refusal(s)),
    }
}

/// The padding as a number of three bytes, those that are absent 0.
pub fn pads(p: &[u8]) -> u32
    ensures { result ≡ be 3 p.now 0 }
{
    word::be_u32(p) / 0x100
}

/// Do complete AVPs cover `s` to its last byte?
pub fn tiles(s: &[u8]) -> bool
    ensures { result ≡ tiling s.now }
{
    let mut rest = s;
    while let Some(a) = first_avp(rest) {
        rest = &rest[a.size..];
    }
    rest.is_empty()
}
