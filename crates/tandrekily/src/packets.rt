// RADIUS packets for C and Rust: read and written, over numbers and byte slices.
ghost use Rattle.std.specs.Prelude.{◌≡◌};
ghost use Rattle.results.specs.Packets.{packet_result};
ghost use Rattle.tandrekily.specs.Packets.{packet_asked, packet_store, authenticator_after, write_result, write_output};

use radius::Packet;
use radius_writer::Fields;
use results::packets::RESULT;

/// Decodes the RADIUS packet at the front of `input` into records in `store`, and gives its authenticator.
pub fn tandrekily_radius(
    input: &[u8],
    store: &mut [u8],
    authenticator: &mut [u8; Packet::AUTHENTICATOR],
    res: &mut [u64; RESULT],
)
    ensures res { res.new ≡ packet_result (packet_asked store.old input.now) }
    ensures authenticator { authenticator.new ≡ authenticator_after (packet_asked store.old input.now) authenticator.old }
    ensures store { store.new ≡ packet_store store.old input.now }
{
    let parsed = radius::parse(input, store);
    let given = parsed.authenticator;
    match parsed.decoded {
        Ok(p) => {
            *authenticator = given;
            *res = results::packets::lay(0, 0, p);
        }
        Err(why) => {
            *res = results::packets::refused(why);
        }
    }
}

/// Writes the RADIUS packet of a table of records, whose data are in `pool`, to the front of `out`.
pub fn tandrekily_radius_write(
    code: u8,
    identifier: u8,
    authenticator: &[u8; Fields::AUTHENTICATOR],
    table: &[u8],
    pool: &[u8],
    out: &mut [u8],
    res: &mut [u64; RESULT],
)
    ensures res { res.new ≡ write_result code identifier authenticator.now table.now pool.now out.old }
    ensures out { out.new ≡ write_output code identifier authenticator.now table.now pool.now out.old }
{
    let fields = Fields {
        code,
        identifier,
        authenticator: *authenticator,
    };
    *res = results::packets::of_written(radius_writer::write(fields, table, pool, out));
}
