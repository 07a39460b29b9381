// The refusals (docs/FORMAT.md, 7.1), each with its number and its amount.
// This crate knows the list, and nothing of when a refusal is given.
#![tactic(auto)]

ghost use Rattle.std.specs.Prelude.{◌≡◌};
ghost use Rattle.refusal.specs.declared.Refusal.TheVariants.{Incomplete};
ghost use Rattle.refusal.specs.Refusals.{number_of, amount_of};

use octets::at_hand::Absent;

/// Why an input, a table or a request is refused.
#[derive(Clone, Copy, Debug, PartialEq, Eq)]
pub enum Refusal {
    /// So many bytes more are needed.
    Incomplete(usize),
    NotVersion,
    BadLength,
    NotTiled,
    TooDeep,
    /// So many records are needed.
    NoRecords(usize),
    BadDepth,
    BadHeader,
    /// So many records keep the rules.
    BadTable(usize),
    TooLong,
    /// So many bytes are needed.
    NoRoom(usize),
    BadEdition,
    BadExponent,
}

impl Refusal {
    /// Its number.
    pub fn number(self) -> u8
        ensures { result ≡ number_of self }
    {
        match self {
            Refusal::Incomplete(_) => 1,
            Refusal::NotVersion => 2,
            Refusal::BadLength => 3,
            Refusal::NotTiled => 4,
            Refusal::TooDeep => 5,
            Refusal::NoRecords(_) => 6,
            Refusal::BadDepth => 7,
            Refusal::BadHeader => 8,
            Refusal::BadTable(_) => 9,
            Refusal::TooLong => 10,
            Refusal::NoRoom(_) => 11,
            Refusal::BadEdition => 12,
            Refusal::BadExponent => 13,
        }
    }

    /// Its amount, and 0 where it has none.
    pub fn amount(self) -> usize
        ensures { result ≡ amount_of self }
    {
        match self {
            Refusal::Incomplete(n)
            | Refusal::NoRecords(n)
            | Refusal::BadTable(n)
            | Refusal::NoRoom(n) => n,
            _ => 0,
        }
    }
}

/// Bytes that are absent are bytes that are needed.
impl From<Absent> for Refusal {
    ghost from_gives = { λ absent r. r ≡ Incomplete absent.0 };

    fn from(absent: Absent) -> Refusal {
        Refusal::Incomplete(absent.0)
    }
}
