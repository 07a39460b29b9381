// The editions of the credit-control dictionary, RFC 4006 and RFC 8506: their numbers, and the kinds by code.
// This crate knows which edition has which codes; what a dictionary has beside its kinds is the RFC reading's.
#![tactic(auto)]

mod kinds;

ghost use Rattle.std.specs.Prelude.{◌≡◌};
ghost use Rattle.editions.specs.Editions.{chosen, no_edition, kind_table};

use attribute::Reading;
use kinds::{ADDED, ADDED_FIRST, FIRST, KINDS};
use record::kinds::UNHANDLED;
use refusal::Refusal;

/// An edition. Older gateways stay with RFC 4006.
#[derive(Clone, Copy, Debug, PartialEq, Eq)]
pub enum Edition {
    Rfc4006,
    Rfc8506,
}

const RFC4006: u32 = 4006;

const RFC8506: u32 = 8506;

/// How many codes the table of an edition has, from 0 on. Any other code is Unhandled.
pub const CODES: usize = 670;

impl Edition {
    /// The edition of a number, which is that of its RFC.
    #[tactic(auto, using(std::proofs::lemmas::Bool::Decides::nat_tests), unfolding(crate::specs::Editions::chosen))]
    pub fn by_number(number: u32) -> Option<Edition>
        ensures { result ≡ chosen number }
    {
        match number {
            RFC4006 => Some(Edition::Rfc4006),
            RFC8506 => Some(Edition::Rfc8506),
            _ => None,
        }
    }

    /// The kinds of its codes, where no vendor counts: those of the RFC reading, with its own blocks over them.
    pub fn kind_table(self) -> [u8; CODES]
        ensures { result ≡ kind_table self }
    {
        let mut kinds = [UNHANDLED; CODES];
        let base = attribute::kind_table(Reading::Rfc);
        kinds[..base.len()].copy_from_slice(&base);
        kinds[FIRST..FIRST + KINDS.len()].copy_from_slice(&KINDS);
        if let Edition::Rfc8506 = self {
            kinds[ADDED_FIRST..].copy_from_slice(&ADDED);
        }
        kinds
    }
}

/// How a number that is no edition is refused: the limit comes first.
pub fn no_edition(limit: usize) -> Refusal
    ensures { result ≡ no_edition limit }
{
    if count::allowed(limit) {
        Refusal::BadEdition
    } else {
        Refusal::BadDepth
    }
}
