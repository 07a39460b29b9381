// Numbers in bytes, the highest byte first: read and written by value, so that no caller has to check a length first.
// This crate knows nothing of Diameter.
#![tactic(auto, unfolding(crate::specs::Octets::be, crate::specs::Octets::octets))]

pub mod at_hand;

ghost use Rattle.std.specs.Prelude.{◌≡◌, [], ◌∷◌};
ghost use Rattle.octets.specs.Octets.{octets, Reads};

pub fn be_u16(a: u8, b: u8) -> u32
    ensures { Reads 2 (a ∷ b ∷ []) result }
{
    u16::from_be_bytes([a, b]) as u32
}

pub fn be_u24(a: u8, b: u8, c: u8) -> u32
    ensures { Reads 3 (a ∷ b ∷ c ∷ []) result }
{
    u32::from_be_bytes([0, a, b, c])
}

pub fn be_u32(a: u8, b: u8, c: u8, d: u8) -> u32
    ensures { Reads 4 (a ∷ b ∷ c ∷ d ∷ []) result }
{
    u32::from_be_bytes([a, b, c, d])
}

pub fn be_u64(a: u8, b: u8, c: u8, d: u8, e: u8, f: u8, g: u8, h: u8) -> u64
    ensures { Reads 8 (a ∷ b ∷ c ∷ d ∷ e ∷ f ∷ g ∷ h ∷ []) result }
{
    u64::from_be_bytes([a, b, c, d, e, f, g, h])
}

// The lowest two bytes of a number.
pub fn to_be_u16(v: u32) -> [u8; 2]
    ensures { result ≡ octets 2 v }
{
    let [_, _, a, b] = u32::to_be_bytes(v);
    [a, b]
}

// The lowest three bytes of a number.
pub fn to_be_u24(v: u32) -> [u8; 3]
    ensures { result ≡ octets 3 v }
{
    let [_, a, b, c] = u32::to_be_bytes(v);
    [a, b, c]
}

pub fn to_be_u32(v: u32) -> [u8; 4]
    ensures { result ≡ octets 4 v }
{
    u32::to_be_bytes(v)
}

pub fn to_be_u64(v: u64) -> [u8; 8]
    ensures { result ≡ octets 8 v }
{
    u64::to_be_bytes(v)
}
