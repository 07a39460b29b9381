// The kind of each code by both editions of the credit-control dictionary.
use crate::print;
use attribute::Reading;
use editions::Edition;
use std::io;

// Some more than the tables have.
const CODES: u32 = 701;

fn of_code(rt: &impl Print, edition: u32, kinds: &[u8], code: u32) -> io::Result<()> {
    print::label(rt, b"edition")?;
    print::number(rt, edition)?;
    print::number(rt, code)?;
    print::number(rt, Reading::Rfc.dictionary(kinds).kind(code, 0))?;
    print::end(rt)
}

// A number that is no edition has no table.
fn kind_table(edition: u32) -> [u8; editions::CODES] {
    let Some(chosen) = Edition::by_number(edition) else {
        return [0; editions::CODES];
    };
    chosen.kind_table()
}

pub(super) fn lines(rt: &impl Print) -> io::Result<()> {
    let older = kind_table(4006);
    let newer = kind_table(8506);
    for code in 0..CODES {
        of_code(rt, 4006, &older, code)?;
        of_code(rt, 8506, &newer, code)?;
    }
    Ok(())
}
