// The headers of a message and of an AVP, as the writer puts them.
// This crate knows their fields, and puts none of them where there is no room for all.
#![tactic(auto)]

ghost use Rattle.std.specs.Prelude.{◌≡◌};
ghost use Rattle.octets.specs.Octets.{pack, fields_of, put_all};
ghost use Rattle.header.specs.Parsed.{header_as};
ghost use Rattle.rfc6733.specs.Header.{header_layout};
ghost use Rattle.rfc6733.specs.Writer.{head_fields};

use avp::AVP;
use header::Header;
use record::Record;
use rules::header_size;

/// Puts a message's header (RFC 6733, section 3).
pub fn put_header(h: Header, out: &mut [u8])
    ensures { out.new ≡ put_all (pack (fields_of header_layout (header_as h))) out.old }
{
    if out.len() < Header::SIZE {
        return;
    }
    word::put_u8_u24(&mut out[0..4], h.version, h.length);
    word::put_u8_u24(&mut out[4..8], h.flags, h.code);
    word::put_u32(&mut out[8..12], h.app_id);
    word::put_u32(&mut out[12..16], h.hop_id);
    word::put_u32(&mut out[16..20], h.end_id);
}

/// Puts the header of a record's AVP (RFC 6733, section 4.1), with its length.
#[tactic(auto, unfolding(rfc6733::specs::Writer::head_of, rfc6733::specs::Avp::head_size))]
pub fn put_head(r: Record, n: u32, out: &mut [u8])
    ensures { out.new ≡ put_all (pack (head_fields r n)) out.old }
{
    if out.len() < header_size(r) {
        return;
    }
    word::put_u32(&mut out[0..4], r.code);
    word::put_u8_u24(&mut out[4..8], r.flags, n);
    if AVP::vendor_specific_flag(r.flags) {
        word::put_u32(&mut out[8..12], r.vendor);
    }
}
