// Diameter's Address (RFC 6733, section 4.3.1): what data that should be one are.
// This crate knows the data of an Address, and nothing of other kinds or of error flags.
#![tactic(auto)]

ghost use Rattle.std.specs.Prelude.{◌≡◌};
ghost use Rattle.rfc6733.specs.Dictionary.{bare_address, family_address};
ghost use Rattle.address.specs.Addresses.{address_number, Finds};

/// An IPv4 address as a number. An IPv6 address stays in the input.
#[derive(Clone, Copy, Debug, PartialEq, Eq)]
pub enum IpAddr {
    V4(u32),
    V6,
}

/// Why data that should be an Address are none.
#[derive(Clone, Copy, Debug, PartialEq, Eq)]
pub enum NoAddress {
    BadLength,
    OtherFamily,
}

impl IpAddr {
    const V4_SIZE: usize = 4;

    const V6_SIZE: usize = 16;

    // Address families (IANA, "Address Family Numbers"), which stand before the address where it has one, and where the
    // data end then.
    const V4_FAMILY: u32 = 1;

    const V4_END: usize = 6;

    const V6_FAMILY: u32 = 2;

    const V6_END: usize = 18;

    /// The number in a record's value field.
    pub fn number(self) -> u64
        ensures { result ≡ address_number self }
    {
        match self {
            IpAddr::V4(bits) => bits as u64,
            IpAddr::V6 => 0,
        }
    }
}

/// Data that are the address alone.
pub fn bare(data: &[u8]) -> Result<IpAddr, NoAddress>
    ensures { Finds (bare_address «data».now) «data».now result }
{
    match data.len() {
        IpAddr::V4_SIZE => Ok(IpAddr::V4(word::be_u32(data))),
        IpAddr::V6_SIZE => Ok(IpAddr::V6),
        _ => Err(NoAddress::BadLength),
    }
}

/// Data that are a family, then the address.
pub fn after_family(data: &[u8]) -> Result<IpAddr, NoAddress>
    ensures { Finds (family_address «data».now) «data».now result }
{
    let [high, low, address @ ..] = data else {
        return Err(NoAddress::BadLength);
    };
    match (octets::be_u16(*high, *low), data.len()) {
        (IpAddr::V4_FAMILY, IpAddr::V4_END) => Ok(IpAddr::V4(word::be_u32(address))),
        (IpAddr::V6_FAMILY, IpAddr::V6_END) => Ok(IpAddr::V6),
        (IpAddr::V4_FAMILY | IpAddr::V6_FAMILY, _) => Err(NoAddress::BadLength),
        _ => Err(NoAddress::OtherFamily),
    }
}
