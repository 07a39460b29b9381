// The front of a slice as bytes and as a number of four or eight bytes: read, and put. A slice of any length has an
// answer. Where it is cut to size, as in `&s[4..8]`, no test of its length is left, and the compiler makes one load or
// one store.
#![tactic(auto, unfolding(octets::specs::Octets::octets, octets::specs::Octets::over, octets::specs::Octets::put_all))]

ghost use Rattle.std.specs.Prelude.{◌≡◌, ◌++◌, take, replicate};
ghost use Rattle.octets.specs.Octets.{be, octets, put_all};
ghost use Rattle.word.specs.Word.{put_word, put_long};

/// The first N bytes. A byte that is absent counts as 0.
pub fn front<const N: usize>(s: &[u8]) -> [u8; N]
    ensures { result ≡ take N (s.now ++ replicate N 0) }
{
    let mut bytes = [0; N];
    let n = s.len().min(N);
    bytes[..n].copy_from_slice(&s[..n]);
    bytes
}

/// The first four bytes as a number. A byte that is absent counts as 0.
// By the length: of bytes whose number is not known a copy is a call.
#[tactic(auto, unfolding(octets::specs::Octets::be))]
pub fn be_u32(s: &[u8]) -> u32
    ensures { result ≡ be 4 s.now 0 }
{
    match *s {
        [a, b, c, d, ..] => octets::be_u32(a, b, c, d),
        [a, b, c] => octets::be_u32(a, b, c, 0),
        [a, b] => octets::be_u32(a, b, 0, 0),
        [a] => octets::be_u32(a, 0, 0, 0),
        [] => 0,
    }
}

/// The first eight bytes as a number. A byte that is absent counts as 0.
#[tactic(auto, unfolding(octets::specs::Octets::be))]
pub fn be_u64(s: &[u8]) -> u64
    ensures { result ≡ be 8 s.now 0 }
{
    let high = be_u32(s) as u64 * 0x1_0000_0000;
    match s {
        [_, _, _, _, low @ ..] => high + be_u32(low) as u64,
        _ => high,
    }
}

// Puts bytes over the front, if there is room for them.
fn put(out: &mut [u8], bytes: &[u8])
    ensures { out.new ≡ put_all bytes.now out.old }
{
    if bytes.len() <= out.len() {
        out[..bytes.len()].copy_from_slice(bytes);
    }
}

/// Puts a number over the first four bytes, if there are four.
pub fn put_u32(out: &mut [u8], v: u32)
    ensures { out.new ≡ put_word v out.old }
{
    put(out, &octets::to_be_u32(v));
}

/// Puts a number over the first eight bytes, if there are eight.
pub fn put_u64(out: &mut [u8], v: u64)
    ensures { out.new ≡ put_long v out.old }
{
    put(out, &octets::to_be_u64(v));
}

/// Puts a byte and then the lowest three of a number over the first four bytes, if there are four. They are put as one
/// number, since that is one store: as four bytes in an array they cost a record 6 instructions more.
pub fn put_u8_u24(out: &mut [u8], high: u8, low: u32)
    ensures { out.new ≡ put_all (octets 1 high ++ octets 3 low) out.old }
{
    put_u32(out, high as u32 * 0x100_0000 + low % 0x100_0000);
}
