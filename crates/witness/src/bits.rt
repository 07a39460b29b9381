// Flags: what the header and the AVP answer of each byte of flags.
use crate::print;
use avp::AVP;
use header::Header;
use std::io;

fn of_header(rt: &impl Print, flags: u8) -> io::Result<()> {
    let h = Header {
        version: 1,
        length: 20,
        flags,
        code: 0,
        app_id: 0,
        hop_id: 0,
        end_id: 0,
    };
    print::label(rt, b"header")?;
    print::number(rt, flags)?;
    print::bit(rt, h.is_request())?;
    print::bit(rt, h.is_proxiable())?;
    print::bit(rt, h.is_error())?;
    print::bit(rt, h.is_potentially_retransmitted())?;
    print::number(rt, h.get_reserved())?;
    print::end(rt)
}

fn of_avp(rt: &impl Print, flags: u8) -> io::Result<()> {
    let a = AVP {
        code: 0,
        flags,
        length: 8,
        vendor_id: 0,
        size: 8,
    };
    print::label(rt, b"avp")?;
    print::number(rt, flags)?;
    print::bit(rt, AVP::vendor_specific_flag(flags))?;
    print::bit(rt, a.is_vendor_specific())?;
    print::bit(rt, a.is_mandatory())?;
    print::bit(rt, a.is_protected())?;
    print::number(rt, a.get_reserved())?;
    print::number(rt, AVP::header_size_of(flags))?;
    print::number(rt, a.header_size())?;
    print::end(rt)
}

pub(super) fn lines(rt: &impl Print) -> io::Result<()> {
    for flags in 0..=255u8 {
        of_header(rt, flags)?;
        of_avp(rt, flags)?;
    }
    Ok(())
}
