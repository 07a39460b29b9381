// The AVP at the front of a slice where a complete one is known to be: its fields and its padding, with none of the tests that the count made.
ghost use Rattle.std.specs.Prelude.{◌≡◌, true, ◌+◌, ◌≤◌, length};
ghost use Rattle.octets.specs.Octets.{be};
ghost use Rattle.rfc6733.specs.Avp.{flags, head_size, vendor, complete, Exact, pads};
ghost use Rattle.front.specs.Front.{avp_of};

use avp::AVP;

// Four bytes of `s` as a number.
fn word(s: &[u8], at: usize) -> u32
    requires { at + 4 ≤ length s.now }
    ensures { result ≡ be 4 s.now at }
{
    word::be_u32(&s[at..at + 4])
}

// Present only with the vendor bit.
fn vendor_id(s: &[u8]) -> u32
    requires { head_size (flags s.now) ≤ length s.now }
    ensures { result ≡ vendor s.now }
{
    if AVP::vendor_specific_flag(s[4]) {
        return word(s, 8);
    }
    0
}

// The AVP at the front of `s`.
pub(super) fn avp(s: &[u8]) -> AVP
    requires { complete s.now ≡ true }
    ensures { result ≡ avp_of s.now }
{
    // A byte of flags, and three of the length (RFC 6733, section 4.1).
    let flags_length = word(s, 4);
    let flags = (flags_length / 0x100_0000) as u8;
    let length = (flags_length % 0x100_0000) as usize;
    AVP {
        code: word(s, 0),
        flags,
        length,
        vendor_id: vendor_id(s),
        size: length + AVP::padding(length - AVP::header_size_of(flags)),
    }
}

// The padding of the AVP `a`, whose own bytes are `s`, as a number of three bytes, those that are absent 0. It is the end of the last word,
// shifted to the front of the three.
pub(super) fn pads(s: &[u8], a: AVP) -> u32
    requires { (a ≡ avp_of s.now) × Exact s.now }
    ensures { result ≡ pads s.now }
{
    let padding = a.size - a.length;
    (word(s, a.size - AVP::WORD) << (24 - 8 * padding as u32)) % 0x100_0000
}
