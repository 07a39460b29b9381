// Texts at both ends of each range of RFC 3629, section 4, and one outside: each byte of a row in turn, while the others stand at their
// lowest and then at their highest; alone, and between letters. oracle/witness.py makes the same texts from the RFC's own lines.
use crate::print;
use record::kinds::UTF8_STRING;
use std::io;
use value::Value;

fn utf8(rt: &impl Print, text: &[u8]) -> io::Result<()> {
    let read = Value::new(false, UTF8_STRING, text);
    let value = read.value;
    print::label(rt, b"utf8")?;
    print::bit(rt, tandrekily::tandrekily_is_utf8(text))?;
    print::number(rt, tandrekily::tandrekily_utf8(text))?;
    print::number(rt, value.kind())?;
    print::bytes(rt, text)?;
    print::end(rt)
}

// The first bytes of a text, `size` of them.
fn front(rt: &impl Print, text: [u8; 4], size: usize) -> io::Result<()> {
    match size {
        1 => utf8(rt, &[text[0]]),
        2 => utf8(rt, &[text[0], text[1]]),
        3 => utf8(rt, &[text[0], text[1], text[2]]),
        _ => utf8(rt, &text),
    }
}

fn between_letters(rt: &impl Print, text: [u8; 4], size: usize) -> io::Result<()> {
    match size {
        1 => utf8(rt, &[b'a', text[0], b'b']),
        2 => utf8(rt, &[b'a', text[0], text[1], b'b']),
        3 => utf8(rt, &[b'a', text[0], text[1], text[2], b'b']),
        _ => utf8(rt, &[b'a', text[0], text[1], text[2], text[3], b'b']),
    }
}

fn with(rt: &impl Print, mut text: [u8; 4], size: usize, at: usize, b: u8) -> io::Result<()> {
    if at < 4 {
        text[at] = b;
        front(rt, text, size)?;
        between_letters(rt, text, size)?;
    }
    Ok(())
}

fn around(
    rt: &impl Print,
    text: [u8; 4],
    size: usize,
    at: usize,
    low: u8,
    high: u8,
) -> io::Result<()> {
    if low > 0 {
        with(rt, text, size, at, low - 1)?;
    }
    with(rt, text, size, at, low)?;
    with(rt, text, size, at, high)?;
    if high < 255 {
        with(rt, text, size, at, high + 1)?;
    }
    Ok(())
}

fn row(rt: &impl Print, size: usize, low: [u8; 4], high: [u8; 4]) -> io::Result<()> {
    for at in 0..4 {
        if at < size {
            around(rt, low, size, at, low[at], high[at])?;
            around(rt, high, size, at, low[at], high[at])?;
        }
    }
    Ok(())
}

pub(super) fn lines(rt: &impl Print) -> io::Result<()> {
    row(rt, 1, [0x00, 0, 0, 0], [0x7F, 0, 0, 0])?;
    row(rt, 2, [0xC2, 0x80, 0, 0], [0xDF, 0xBF, 0, 0])?;
    row(rt, 3, [0xE0, 0xA0, 0x80, 0], [0xE0, 0xBF, 0xBF, 0])?;
    row(rt, 3, [0xE1, 0x80, 0x80, 0], [0xEC, 0xBF, 0xBF, 0])?;
    row(rt, 3, [0xED, 0x80, 0x80, 0], [0xED, 0x9F, 0xBF, 0])?;
    row(rt, 3, [0xEE, 0x80, 0x80, 0], [0xEF, 0xBF, 0xBF, 0])?;
    row(rt, 4, [0xF0, 0x90, 0x80, 0x80], [0xF0, 0xBF, 0xBF, 0xBF])?;
    row(rt, 4, [0xF1, 0x80, 0x80, 0x80], [0xF3, 0xBF, 0xBF, 0xBF])?;
    row(rt, 4, [0xF4, 0x80, 0x80, 0x80], [0xF4, 0x8F, 0xBF, 0xBF])
}
