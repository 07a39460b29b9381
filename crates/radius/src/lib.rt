// RADIUS (RFC 2865): a packet, from a lent slice to a header, records in a lent store, error flags, counts and a length.
// The attributes are counted first, and nothing is written until they fit, so a refusal has changed no byte.
#![tactic(auto)]

ghost use Rattle.std.specs.Prelude.{◌≡◌, ◌≤◌, length};
ghost use Rattle.record.specs.Store.{room, stored};
ghost use Rattle.rfc2865.specs.Packet.{header_size, header_of, packet_records, decoded};
ghost use Rattle.refusal.specs.Answer as refusal;
ghost use Rattle.radius.specs.Answers.{measured_of, Measures, answered, answer_of, authenticator_of};

use octets::at_hand;
use refusal::Refusal;
use rfc2865::packet;

/// An accepted packet: code and identifier of its header, error flags, number of records, attributes tried and length.
#[derive(Clone, Copy, Debug, PartialEq, Eq)]
pub struct Packet {
    pub code: u8,
    pub identifier: u8,
    pub errors: u8,
    pub records: usize,
    pub tried: usize,
    pub length: usize,
}

/// What decoding a packet answers, and beside it the authenticator. Where the packet is refused that is zero.
#[derive(Clone, Copy, Debug, PartialEq, Eq)]
pub struct Parsed {
    pub decoded: Result<Packet, Refusal>,
    pub authenticator: [u8; Packet::AUTHENTICATOR],
}

impl Packet {
    pub const AUTHENTICATOR: usize = packet::AUTHENTICATOR;

    pub const HEADER: usize = packet::HEADER;

    pub const MOST: usize = packet::MOST;
}

// How long a packet is. The tests of its header, in order.
#[tactic(auto, using(crate::proofs::Packets::stated), unfolding(rfc2865::specs::Packet::header_refusals))]
fn measure(input: &[u8]) -> Result<usize, Refusal>
    ensures { refusal.answer_of result ≡ measured_of input.now }
{
    let available = input.len();
    at_hand::length(packet::FRONT, available)?;
    let length = octets::be_u16(input[2], input[3]) as usize;
    if (length < Packet::HEADER) | (Packet::MOST < length) {
        return Err(Refusal::BadLength);
    }
    at_hand::length(length, available)?;
    Ok(length)
}

// A packet of so many bytes, whose header was accepted.
fn parse_body(length: usize, input: &[u8], store: &mut [u8]) -> Result<Packet, Refusal>
    requires { Measures length input.now }
    ensures answer { answered input.now result ≡ decoded (room store.old) input.now }
    ensures store { store.new ≡ stored (answered input.now result) (packet_records input.now) store.old }
{
    let body = &input[Packet::HEADER..length];
    let counts = radius_attributes::parse_attributes(body, Packet::HEADER as u32, store)?;
    Ok(Packet {
        code: input[0],
        identifier: input[1],
        errors: counts.errors,
        records: counts.records,
        tried: counts.records,
        length,
    })
}

// A packet, without its authenticator.
fn parse_packet(input: &[u8], store: &mut [u8]) -> Result<Packet, Refusal>
    ensures answer { answered input.now result ≡ decoded (room store.old) input.now }
    ensures store { store.new ≡ stored (answered input.now result) (packet_records input.now) store.old }
{
    parse_body(measure(input)?, input, store)
}

#[tactic(auto, unfolding(rfc2865::specs::Packet::header_of))]
fn authenticator(input: &[u8]) -> [u8; Packet::AUTHENTICATOR]
    requires { header_size ≤ length input.now }
    ensures { result ≡ (header_of input.now).authenticator }
{
    let mut bytes = [0; Packet::AUTHENTICATOR];
    bytes.copy_from_slice(&input[packet::FRONT..Packet::HEADER]);
    bytes
}

/// Decodes the packet at the front of `input` into records in `store`. What is past its length is ignored.
pub fn parse(input: &[u8], store: &mut [u8]) -> Parsed
    ensures answer { answer_of result ≡ decoded (room store.old) input.now }
    ensures authenticator { result.authenticator ≡ authenticator_of (decoded (room store.old) input.now) }
    ensures store { store.new ≡ stored (answer_of result) (packet_records input.now) store.old }
{
    let decoded = parse_packet(input, store);
    let authenticator = match decoded {
        Ok(_) => authenticator(input),
        Err(_) => [0; Packet::AUTHENTICATOR],
    };
    Parsed {
        decoded,
        authenticator,
    }
}
