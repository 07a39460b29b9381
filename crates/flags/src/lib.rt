// The error flags (docs/FORMAT.md, 3), a number below 16, and how they join.
// This crate knows no layout and no reading.
#![tactic(auto)]

ghost use Rattle.std.specs.Prelude.{◌≡◌};
ghost use Rattle.flags.specs.Flags.{flag, join};

/// Flags identify messages which parse successfully but contain invalid data.
#[derive(Clone, Copy, Debug, PartialEq, Eq)]
pub enum ErrorFlags {
    DataValue = 0b0000_0001,
    DataLength = 0b0000_0010,
    NonZeroReserved = 0b0000_0100,
    NonZeroPadding = 0b0000_1000,
}

/// The flag, if it is raised.
pub fn raised(on: bool, bits: u8) -> u8
    ensures { result ≡ flag on bits }
{
    if on { bits } else { 0 }
}

/// Flags of either.
#[tactic(auto, unfolding(crate::specs::Flags::join))]
pub fn join(a: u8, b: u8) -> u8
    ensures { result ≡ join a b }
{
    a | b
}
