// What an AVP's data are: a typed value with its error flags.
// This crate knows the data of one AVP, and nothing of records or of nesting.
#![tactic(auto)]

ghost use Rattle.std.specs.Prelude.{◌≡◌, ℕ, ◌≤◌, ◌<◌, cond, ◌||◌, length, ltb};
ghost use Rattle.octets.specs.Octets.{be};
ghost use Rattle.rfc6733.specs.Records.{tiling};
ghost use Rattle.flags.specs.Flags.{data_value, data_length, flag};
ghost use Rattle.attribute.specs.ByTable.{known, address_by};
ghost use Rattle.value.specs.Values.{kind_of, number_of, text_of, text_errors, address_or_none, address_errors};
ghost use Rattle.value.specs.Values.{Shows, value_if, new_value};

use address::{IpAddr, NoAddress};
use flags::ErrorFlags;
use record::kinds::{
    ADDRESS, DIAMETER_IDENTITY, DIAMETER_URI, ENUMERATED, FLOAT32, FLOAT64, GROUPED, INTEGER32,
    INTEGER64, OCTET_STRING, TIME, UNHANDLED, UNSIGNED32, UNSIGNED64, UTF8_STRING,
};
use utf8::Utf8Error;

/// AVP Data Format as specified in RFC 6733, section 4.2. Data that are no number stay in the input;
/// a number is held as its bits, whatever its sign or form.
#[derive(Clone, Copy, Debug, PartialEq, Eq)]
pub enum Value {
    /// Of ill-formed text, the length of its longest prefix that is well-formed; otherwise 0.
    Unhandled(u64),
    OctetString,
    Integer32(u32),
    Integer64(u64),
    Unsigned32(u32),
    Unsigned64(u64),
    Float32(u32),
    Float64(u64),
    Grouped,
    Enumerated(u32),
    UTF8String,
    DiameterIdentity,
    DiameterURI,
    Address(IpAddr),
    Time(u32),
}

/// A value with the error flags that reading it raised.
#[derive(Clone, Copy, Debug, PartialEq, Eq)]
pub struct Read {
    pub value: Value,
    pub errors: u8,
}

// A number of 32 or of 64 bits (RFC 6733, section 4.2).
trait Number {
    ghost SIZE: { ℕ };

    ghost bits: { Self → ℕ };

    // How many bytes it takes.
    const SIZE: usize;

    // The one at the front of some bytes. A byte that is absent counts as 0.
    fn at_front(bytes: &[u8]) -> Self
        ensures { bits result ≡ be SIZE bytes.now 0 };
}

impl Number for u32 {
    ghost SIZE = { 4 };

    ghost bits = { λ n. n };

    const SIZE: usize = 4;

    fn at_front(bytes: &[u8]) -> u32 {
        word::be_u32(bytes)
    }
}

impl Number for u64 {
    ghost SIZE = { 8 };

    ghost bits = { λ n. n };

    const SIZE: usize = 8;

    fn at_front(bytes: &[u8]) -> u64 {
        word::be_u64(bytes)
    }
}

impl Read {
    fn good(value: Value) -> Read
        ensures { (result.value ≡ value) × (result.errors ≡ 0) }
    {
        Read { value, errors: 0 }
    }

    fn unhandled(errors: u8) -> Read
        ensures { (result.value ≡ Value.Unhandled 0) × (result.errors ≡ errors) }
    {
        Read {
            value: Value::Unhandled(0),
            errors,
        }
    }

    // A group, whose members must tile.
    fn group(tiles: bool) -> Read
        ensures { (result.value ≡ cond tiles Value.Grouped (Value.Unhandled 0))
            × (result.errors ≡ cond tiles 0 data_value) }
    {
        if tiles {
            return Read::good(Value::Grouped);
        }
        Read::unhandled(ErrorFlags::DataValue as u8)
    }

    // Text that is well-formed no further.
    fn ill_formed(why: Utf8Error) -> Read
        ensures { (result.value ≡ Value.Unhandled why.valid_up_to) × (result.errors ≡ data_value) }
    {
        Read {
            value: Value::Unhandled(why.valid_up_to as u64),
            errors: ErrorFlags::DataValue as u8,
        }
    }

    // A value that is text.
    fn text(checked: Result<(), Utf8Error>, value: Value) -> Read
        ensures { (result.value ≡ text_of checked value) × (result.errors ≡ text_errors checked) }
    {
        match checked {
            Ok(()) => Read::good(value),
            Err(why) => Read::ill_formed(why),
        }
    }

    // A number, and the value that is made of it. With surplus data it is kept; with too few the data are Unhandled.
    fn number<N: Number, F: FnOnce(N) -> Value>(data: &[u8], value: F) -> Read
        requires { F.IsAlwaysCallable value }
        ensures few { length «data».now < N.SIZE → (result.value ≡ Value.Unhandled 0) × (result.errors ≡ data_length) }
        ensures enough { N.SIZE ≤ length «data».now →
            (n : N) × (N.bits n ≡ be N.SIZE «data».now 0) × F.post value n result.value
            × (result.errors ≡ flag (ltb N.SIZE (length «data».now)) data_length) }
    {
        let size = data.len();
        if size < N::SIZE {
            return Read::unhandled(ErrorFlags::DataLength as u8);
        }
        Read {
            value: value(N::at_front(data)),
            errors: flags::raised(N::SIZE < size, ErrorFlags::DataLength as u8),
        }
    }

    // What an Address's data are.
    fn address(found: Result<IpAddr, NoAddress>) -> Read
        ensures { (result.value ≡ address_or_none found) × (result.errors ≡ address_errors found) }
    {
        match found {
            Ok(address) => Read::good(Value::Address(address)),
            Err(NoAddress::BadLength) => Read::unhandled(ErrorFlags::DataLength as u8),
            Err(NoAddress::OtherFamily) => Read::unhandled(0),
        }
    }
}

impl Value {
    /// The value of an AVP's data by its kind. A number that is no kind is Unhandled.
    /// An Address starts with its family, or not.
    pub fn new(families: bool, kind: u8, data: &[u8]) -> Read
        ensures { Shows (new_value (address_by families) (known kind) «data».now) «data».now result }
    {
        Value::new_known(families, false, kind, data)
    }

    /// The same, where it may be known already that a group's members tile: `tiles` says so.
    /// Where it is false they are asked.
    pub fn new_known(families: bool, tiles: bool, kind: u8, data: &[u8]) -> Read
        ensures { Shows (value_if (tiles || tiling «data».now) (address_by families) (known kind) «data».now)
            «data».now result }
    {
        match kind {
            OCTET_STRING => Read::good(Value::OctetString),
            INTEGER32 => Read::number(data, Value::Integer32),
            INTEGER64 => Read::number(data, Value::Integer64),
            UNSIGNED32 => Read::number(data, Value::Unsigned32),
            UNSIGNED64 => Read::number(data, Value::Unsigned64),
            FLOAT32 => Read::number(data, Value::Float32),
            FLOAT64 => Read::number(data, Value::Float64),
            GROUPED => Read::group(tiles || front::tiles(data)),
            ENUMERATED => Read::number(data, Value::Enumerated),
            UTF8_STRING => Read::text(utf8::check(data), Value::UTF8String),
            DIAMETER_IDENTITY => Read::text(utf8::check(data), Value::DiameterIdentity),
            DIAMETER_URI => Read::text(utf8::check(data), Value::DiameterURI),
            ADDRESS => {
                Read::address(if families {
                    address::after_family(data)
                } else {
                    address::bare(data)
                })
            }
            TIME => Read::number(data, Value::Time),
            _ => Read::unhandled(0),
        }
    }

    /// The kind of a value (docs/FORMAT.md, 4.1).
    pub fn kind(self) -> u8
        ensures { result ≡ kind_of self }
    {
        match self {
            Value::Unhandled(_) => UNHANDLED,
            Value::OctetString => OCTET_STRING,
            Value::Integer32(_) => INTEGER32,
            Value::Integer64(_) => INTEGER64,
            Value::Unsigned32(_) => UNSIGNED32,
            Value::Unsigned64(_) => UNSIGNED64,
            Value::Float32(_) => FLOAT32,
            Value::Float64(_) => FLOAT64,
            Value::Grouped => GROUPED,
            Value::Enumerated(_) => ENUMERATED,
            Value::UTF8String => UTF8_STRING,
            Value::DiameterIdentity => DIAMETER_IDENTITY,
            Value::DiameterURI => DIAMETER_URI,
            Value::Address(_) => ADDRESS,
            Value::Time(_) => TIME,
        }
    }

    /// The number in a record's value field.
    pub fn number(self) -> u64
        ensures { result ≡ number_of self }
    {
        match self {
            Value::Unhandled(n) => n,
            Value::Integer64(n) => n,
            Value::Unsigned64(n) => n,
            Value::Float64(n) => n,
            Value::Integer32(n)
            | Value::Unsigned32(n)
            | Value::Float32(n)
            | Value::Enumerated(n)
            | Value::Time(n) => n as u64,
            Value::Address(address) => address.number(),
            _ => 0,
        }
    }
}
