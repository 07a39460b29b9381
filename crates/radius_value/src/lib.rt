// What an attribute's data are (RFC 2865, section 5): a kind, the number in a record's value field, and error flags.
// This crate knows a type and its data, and nothing of where an attribute stands.
#![tactic(auto)]

pub mod types;

ghost use Rattle.std.specs.Prelude.{◌≡◌};
ghost use Rattle.record.specs.Value.{value, text};
ghost use Rattle.rfc2865.specs.Records.{four_bytes, data_as};
ghost use Rattle.radius_value.specs.Values.{value_as};

use flags::ErrorFlags;
use record::kinds::{ADDRESS, UNHANDLED, UNSIGNED32, UTF8_STRING};

/// A kind, the number in a record's value field, and the error flags.
#[derive(Clone, Copy, Debug, PartialEq, Eq)]
pub struct Value {
    pub kind: u8,
    pub number: u64,
    pub errors: u8,
}

impl Value {
    // Data that are what their kind says.
    fn good(kind: u8, number: u64) -> Value
        ensures { value_as result ≡ value kind 0 number }
    {
        Value {
            kind,
            number,
            errors: 0,
        }
    }

    // Data that are not.
    fn unhandled(errors: u8, number: u64) -> Value
        ensures { value_as result ≡ value UNHANDLED errors number }
    {
        Value {
            kind: UNHANDLED,
            number,
            errors,
        }
    }
}

// An address or an integer. Data of another length are Unhandled, and a surplus is not kept.
#[tactic(auto, unfolding(rfc2865::specs::Records::four_bytes))]
fn four_bytes(kind: u8, data: &[u8]) -> Value
    ensures { value_as result ≡ four_bytes kind «data».now }
{
    match *data {
        [a, b, c, d] => Value::good(kind, octets::be_u32(a, b, c, d) as u64),
        _ => Value::unhandled(ErrorFlags::DataLength as u8, 0),
    }
}

// Text. Where it is ill-formed, the number says how far it is not.
#[tactic(auto, unfolding(record::specs::Value::text))]
fn text(kind: u8, data: &[u8]) -> Value
    ensures { value_as result ≡ text kind «data».now }
{
    match utf8::check(data) {
        Ok(()) => Value::good(kind, 0),
        Err(why) => Value::unhandled(ErrorFlags::DataValue as u8, why.valid_up_to as u64),
    }
}

/// The data by their kind.
#[tactic(auto, unfolding(rfc2865::specs::Records::data_as))]
pub fn read(kind: u8, data: &[u8]) -> Value
    ensures { value_as result ≡ data_as kind «data».now }
{
    match kind {
        UTF8_STRING => text(kind, data),
        ADDRESS | UNSIGNED32 => four_bytes(kind, data),
        _ => Value::good(kind, 0),
    }
}
