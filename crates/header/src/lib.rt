// The Diameter header: its constants, its flag questions, and reading it alone.
// This crate knows the header's 20 bytes, and nothing of AVPs.
#![tactic(auto)]

ghost use Rattle.std.specs.Prelude.{◌≡◌, not, ◌≤◌, length, eqb};
ghost use Rattle.flags.specs.Flags.{bit, flag, non_zero_reserved};
ghost use Rattle.rfc6733.specs.Header.{request_bit, proxiable_bit, error_bit, retransmitted_bit, header_reserved, header_size, header_of, avps_length};
ghost use Rattle.rfc6733.specs.Decoder.{header_alone};
ghost use Rattle.header.specs.Parsed.{header_as, answer_of};

use flags::ErrorFlags;
use octets::at_hand;
use refusal::Refusal;

#[derive(Clone, Copy, Debug, PartialEq, Eq)]
pub struct Header {
    pub version: u8,
    /// Actually u24
    pub length: u32,
    pub flags: u8,
    /// Actually u24
    pub code: u32,
    pub app_id: u32,
    pub hop_id: u32,
    pub end_id: u32,
}

/// A header that was accepted, with its own error flags.
#[derive(Clone, Copy, Debug, PartialEq, Eq)]
pub struct Parsed {
    pub header: Header,
    pub errors: u8,
}

impl Header {
    pub const VERSION: u8 = 1;

    pub const SIZE: usize = 20;

    // Number of bytes included in length that are before and
    // including the length field
    pub const PRE_LENGTH_SIZE: usize = 4;

    pub const REQUEST_FLAG: u8 = 0b1000_0000;

    pub const PROXIABLE_FLAG: u8 = 0b0100_0000;

    pub const ERROR_FLAG: u8 = 0b0010_0000;

    pub const POTENTIALLY_RETRANSMITTED_FLAG: u8 = 0b0001_0000;

    pub const RESERVED_MASK: u8 = 0b0000_1111;

    fn reserved_set(flags: u8) -> bool
        ensures { result ≡ not (eqb (header_reserved flags) 0) }
    {
        flags & Self::RESERVED_MASK != 0
    }

    /// If set, the message is a request. If cleared, the message is an answer.
    pub fn is_request(self) -> bool
        ensures { result ≡ bit request_bit self.flags }
    {
        self.flags & Self::REQUEST_FLAG != 0
    }

    /// If set, the message MAY be proxied, relayed, or redirected. If cleared, the message MUST be locally processed.
    pub fn is_proxiable(self) -> bool
        ensures { result ≡ bit proxiable_bit self.flags }
    {
        self.flags & Self::PROXIABLE_FLAG != 0
    }

    /// If set, the message contains a protocol error, and the message will not conform to the CCF described for this command.
    pub fn is_error(self) -> bool
        ensures { result ≡ bit error_bit self.flags }
    {
        self.flags & Self::ERROR_FLAG != 0
    }

    /// This flag is set after a link failover procedure, to aid the removal of duplicate requests.
    pub fn is_potentially_retransmitted(self) -> bool
        ensures { result ≡ bit retransmitted_bit self.flags }
    {
        self.flags & Self::POTENTIALLY_RETRANSMITTED_FLAG != 0
    }

    /// These flag bits are reserved for future use; they MUST be set to zero and ignored by the receiver.
    pub fn get_reserved(self) -> u8
        ensures { result ≡ header_reserved self.flags }
    {
        self.flags & Self::RESERVED_MASK
    }

    /// Length of AVPs; 0 where the header states a length under its own size.
    pub fn length(self) -> usize
        ensures { result ≡ avps_length self.length }
    {
        let length = self.length as usize;
        if length < Self::SIZE {
            return 0;
        }
        length - Self::SIZE
    }

    // Reserved bits that are set raise a flag, and the header is accepted all the same.
    fn error_flags(flags: u8) -> u8
        ensures { result ≡ flag (not (eqb (header_reserved flags) 0)) non_zero_reserved }
    {
        if Self::reserved_set(flags) {
            return ErrorFlags::NonZeroReserved as u8;
        }
        0
    }

    // RFC 6733, section 3.
    fn fields(input: &[u8]) -> Header
        requires { header_size ≤ length input.now }
        ensures { header_as result ≡ header_of input.now }
    {
        let version_length = word::be_u32(&input[..4]);
        let flags_code = word::be_u32(&input[4..8]);
        Header {
            version: (version_length / 0x100_0000) as u8,
            length: version_length % 0x100_0000,
            flags: (flags_code / 0x100_0000) as u8,
            code: flags_code % 0x100_0000,
            app_id: word::be_u32(&input[8..12]),
            hop_id: word::be_u32(&input[12..16]),
            end_id: word::be_u32(&input[16..20]),
        }
    }

    /// The header alone, of an input that holds the whole message: the length that it states must be at hand.
    pub fn parse(input: &[u8]) -> Result<Parsed, Refusal>
        ensures { answer_of result ≡ header_alone input.now }
    {
        let available = input.len();
        at_hand::length(1, available)?;
        if input[0] != Self::VERSION {
            return Err(Refusal::NotVersion);
        }
        at_hand::length(Self::PRE_LENGTH_SIZE, available)?;
        let stated = octets::be_u24(input[1], input[2], input[3]) as usize;
        if stated < Self::PRE_LENGTH_SIZE {
            return Err(Refusal::BadLength);
        }
        at_hand::length(stated, available)?;
        if stated < Self::SIZE {
            return Err(Refusal::BadLength);
        }
        let header = Self::fields(input);
        Ok(Parsed {
            header,
            errors: Self::error_flags(header.flags),
        })
    }
}
