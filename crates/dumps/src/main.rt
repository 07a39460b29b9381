// Writes the dump's text of each message on standard input: a test of `lines` on what oracle/dumps.py makes.
// A message stands there with its length before it. It stops at the end of the input or at a message that it can't hold.
#![tactic(auto)]

use std::io;
use std::io::{ErrorKind, Read};

const FRAME_SIZE: usize = 4;

const BUFFER_SIZE: usize = 65536;

// Fills the buffer; false where the input ends before it is full.
fn read_full(from: &mut impl Read, buf: &mut [u8]) -> io::Result<bool> {
    match from.read_exact(buf) {
        Ok(()) => Ok(true),
        Err(error) if error.kind() == ErrorKind::UnexpectedEof => Ok(false),
        Err(error) => Err(error),
    }
}

// Reads the next message to the front of the buffer; none where the input ends, or the buffer can't hold it.
fn next<'a>(from: &mut impl Read, buf: &'a mut [u8]) -> io::Result<Option<&'a [u8]>> {
    let mut frame = [0u8; FRAME_SIZE];
    if !read_full(from, &mut frame)? {
        return Ok(None);
    }
    let size = u32::from_be_bytes(frame) as usize;
    if buf.len() < size || !read_full(from, &mut buf[..size])? {
        return Ok(None);
    }
    Ok(Some(&buf[..size]))
}

fn write_text(rt: &impl Print, input: &[u8]) -> io::Result<()> {
    let mut text = [0u8; lines::SIZE];
    let length = lines::dump(input, &mut text);
    rt.write_all(&text[..length])
}

fn main(rt: HostRuntime) -> io::Result<()> {
    let mut from = rt.stdin();
    let mut buf = [0u8; BUFFER_SIZE];
    for _ in 0..u64::MAX {
        let Some(input) = next(&mut from, &mut buf)? else {
            break;
        };
        write_text(&rt, input)?;
    }
    Ok(())
}
