// The signed numbers behind the patterns that records keep: Integer32, Enumerated, Integer64, and a Time in Unix
// seconds; and a number without its sign.
// This crate knows numbers alone, and nothing of bytes.
#![tactic(auto, unfolding(rfc6733::specs::Signed::signed, rfc6733::specs::Signed::unix_seconds))]

ghost use Rattle.std.specs.Prelude.{◌≡◌, nat_abs};
ghost use Rattle.rfc6733.specs.Signed.{signed, unix_seconds};

/// An Enumerated of the RFC reading, which is signed: it is derived from Integer32.
pub fn signed_enumerated(bits: u32) -> i64
    ensures { result ≡ signed 32 bits }
{
    i64::from(integer32(bits))
}

/// An Integer32.
pub fn integer32(bits: u32) -> i32
    ensures { result ≡ signed 32 bits }
{
    bits.cast_signed()
}

/// An Integer64.
pub fn integer64(bits: u64) -> i64
    ensures { result ≡ signed 64 bits }
{
    bits.cast_signed()
}

/// A number without its sign. The least has no opposite in 64 bits, but has a magnitude.
pub fn magnitude(n: i64) -> u64
    ensures { result ≡ nat_abs n }
{
    n.unsigned_abs()
}

// With its top bit clear a Time is reckoned from 2036-02-07 06:28:16 UTC, with it set from 1900 (RFC 4330, section 3).
const TOP_BIT: u32 = 0x8000_0000;

// Seconds from 1900 to 1970, where Unix begins, and from there to that second of 2036.
const FROM_1900: i64 = 2_208_988_800;

const TO_2036: i64 = 2_085_978_496;

/// A Time of the RFC reading in Unix seconds, from 1968-01-20 03:14:08 to 2104-02-26 09:42:23 UTC.
pub fn unix_seconds(time: u32) -> i64
    ensures { result ≡ unix_seconds time }
{
    if time < TOP_BIT {
        return i64::from(time) + TO_2036;
    }
    i64::from(time) - FROM_1900
}
