// The kind of each type of attribute of RADIUS.
use crate::print;
use std::io;

fn of_type(rt: &impl Print, code: u8) -> io::Result<()> {
    print::label(rt, b"radius")?;
    print::number(rt, code)?;
    print::number(rt, radius_value::types::kind(code))?;
    print::end(rt)
}

pub(super) fn lines(rt: &impl Print) -> io::Result<()> {
    for code in 0..=255u8 {
        of_type(rt, code)?;
    }
    Ok(())
}
