// Dumps the message on standard input (docs/FORMAT.md, 9): the text is that of `lines`.
#![tactic(auto)]

ghost use Rattle.std.specs.Prelude.{◌≤◌, length, IfOk};

use std::io;
use std::io::Read;

// Fills the buffer from its front as far as the input goes, and answers the part that has it. Of std's reads to the
// end, `read_exact` doesn't say how much there was, and `read_to_end` asks for an allocator.
fn read_front<'a>(from: &mut impl Read, buf: &'a mut [u8]) -> io::Result<&'a [u8]>
    ensures { IfOk result (λ front. length front.now ≤ length buf.old) }
{
    let mut size = 0;
    while size < buf.len() {
        match from.read(&mut buf[size..])? {
            0 => break,
            more => size += more,
        }
    }
    Ok(&buf[..size])
}

fn main(rt: HostRuntime) -> io::Result<()> {
    let mut buf = [0u8; lines::INPUT];
    let input = match read_front(&mut rt.stdin(), &mut buf) {
        Ok(input) => input,
        Err(error) => {
            eprintln!(rt; "dump: standard input can't be read")?;
            return Err(error);
        }
    };
    let mut text = [0u8; lines::SIZE];
    let length = lines::dump(input, &mut text);
    rt.write_all(&text[..length])
}
