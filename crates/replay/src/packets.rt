// Packets of RADIUS: one that is read, and one that is written.
ghost use Rattle.std.specs.Prelude.{◌≤◌, length};

use radius::{Packet, Parsed};
use radius_writer::Fields;
use refusal::Refusal;
use std::io;

fn write_packet(rt: &impl Print, d: Result<Packet, Refusal>) -> io::Result<()> {
    match d {
        Ok(p) => {
            crate::write_accepted(rt)?;
            crate::write_u8(rt, p.code)?;
            crate::write_u8(rt, p.identifier)?;
            crate::write_counts(rt, p.errors, p.records, p.tried, p.length)
        }
        Err(why) => crate::write_refusal(rt, why),
    }
}

// The authenticator follows in any case, since it is zero where the packet is refused.
pub(super) fn packet(rt: &impl Print, input: &[u8], store: &mut [u8]) -> io::Result<()> {
    let Parsed {
        decoded,
        authenticator,
    } = radius::parse(input, store);
    write_packet(rt, decoded)?;
    rt.write_all(&authenticator)
}

// The header's fields, the length of the table, the table and the pool stand in the input one after the other.
const TABLE: usize = 22;

fn fields_of(f: &[u8]) -> Fields
    requires { 18 ≤ length f.now }
{
    Fields {
        code: f[0],
        identifier: f[1],
        authenticator: [
            f[2], f[3], f[4], f[5], f[6], f[7], f[8], f[9], f[10], f[11], f[12], f[13], f[14],
            f[15], f[16], f[17],
        ],
    }
}

pub(super) fn table(rt: &impl Print, input: &[u8], out: &mut [u8]) -> io::Result<()> {
    if input.len() < TABLE {
        return Ok(());
    }
    let size = octets::be_u32(input[18], input[19], input[20], input[21]) as usize;
    if input.len() - TABLE < size {
        return Ok(());
    }
    let end = TABLE + size;
    crate::write_written(
        rt,
        radius_writer::write(fields_of(input), &input[TABLE..end], &input[end..], out),
    )
}
