// Answers of the public functions that no other program calls, in lines of words and decimal numbers. The lines that it must write
// are made by oracle/witness.py from the texts of the RFCs and of the Rust, so they are a second witness to names, kinds, flags, numbers and ranges.
#![tactic(auto)]

mod bits;
mod by_edition;
mod codes;
mod library;
mod numbers;
mod packets;
mod print;
mod texts;
mod types;

use std::io;

fn main(rt: HostRuntime) -> io::Result<()> {
    codes::lines(&rt)?;
    by_edition::lines(&rt)?;
    types::lines(&rt)?;
    bits::lines(&rt)?;
    numbers::lines(&rt)?;
    texts::lines(&rt)?;
    library::lines(&rt)?;
    packets::lines(&rt)
}
