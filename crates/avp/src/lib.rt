// The AVP: its constants, its flag questions, the size of its header and of its padding.
// This crate knows numbers alone: `front` reads an AVP.
#![tactic(auto)]

ghost use Rattle.std.specs.Prelude.{◌≡◌};
ghost use Rattle.flags.specs.Flags.{bit};
ghost use Rattle.rfc6733.specs.Avp.{vendor_bit, mandatory_bit, protected_bit, avp_reserved, head_size, padding};

/// The header of one AVP, and its size with its padding.
#[derive(Clone, Copy, Debug, PartialEq, Eq)]
pub struct AVP {
    pub code: u32,
    pub flags: u8,
    /// Actually u24
    pub length: usize,
    /// 0 without the vendor bit
    pub vendor_id: u32,
    pub size: usize,
}

impl AVP {
    // Number of bytes included in length that are before and
    // including the length field
    pub const PRE_LENGTH_SIZE: usize = 8;

    // The header's size with the vendor.
    pub const VENDOR_SIZE: usize = 12;

    pub const CODE_SIZE: usize = 4;

    // AVPs nest at most so deep: the largest depth limit.
    pub const MOST_DEPTH: usize = 64;

    // Padding fills the last word.
    pub const WORD: usize = 4;

    pub const VENDOR_SPECIFIC_FLAG: u8 = 0b1000_0000;

    pub const MANDATORY_FLAG: u8 = 0b0100_0000;

    pub const PROTECTED_FLAG: u8 = 0b0010_0000;

    pub const RESERVED_MASK: u8 = 0b0001_1111;

    /// Is the 'V' bit among these flags?
    pub fn vendor_specific_flag(flags: u8) -> bool
        ensures { result ≡ bit vendor_bit flags }
    {
        flags & Self::VENDOR_SPECIFIC_FLAG != 0
    }

    /// The 'V' bit, known as the Vendor-Specific bit, indicates whether the optional Vendor-ID field is present in the
    /// AVP header.
    pub fn is_vendor_specific(self) -> bool
        ensures { result ≡ bit vendor_bit self.flags }
    {
        Self::vendor_specific_flag(self.flags)
    }

    /// The 'M' bit, known as the Mandatory bit, indicates whether the receiver of the AVP MUST parse and understand the
    /// semantics of the AVP including its content.
    pub fn is_mandatory(self) -> bool
        ensures { result ≡ bit mandatory_bit self.flags }
    {
        self.flags & Self::MANDATORY_FLAG != 0
    }

    /// The 'P' bit, known as the Protected bit, has been reserved for future usage of end-to-end security.
    pub fn is_protected(self) -> bool
        ensures { result ≡ bit protected_bit self.flags }
    {
        self.flags & Self::PROTECTED_FLAG != 0
    }

    /// The sender of the AVP MUST set 'R' (reserved) bits to 0 and the receiver SHOULD ignore all 'R' (reserved) bits.
    pub fn get_reserved(self) -> u8
        ensures { result ≡ avp_reserved self.flags }
    {
        self.flags & Self::RESERVED_MASK
    }

    /// How long a header with these flags is.
    #[tactic(auto, unfolding(rfc6733::specs::Avp::head_size))]
    pub fn header_size_of(flags: u8) -> usize
        ensures { result ≡ head_size flags }
    {
        if Self::vendor_specific_flag(flags) {
            Self::VENDOR_SIZE
        } else {
            Self::PRE_LENGTH_SIZE
        }
    }

    /// How long the header is: 8 bytes, and 12 with the vendor.
    pub fn header_size(self) -> usize
        ensures { result ≡ head_size self.flags }
    {
        Self::header_size_of(self.flags)
    }

    /// How many bytes of padding follow so many bytes of data.
    #[tactic(auto, unfolding(rfc6733::specs::Avp::padding))]
    pub fn padding(length: usize) -> usize
        ensures { result ≡ padding length }
    {
        (Self::WORD - length % Self::WORD) % Self::WORD
    }
}
