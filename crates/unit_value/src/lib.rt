// Unit-Values of credit-control (RFC 4006 and RFC 8506, section 8.8) compared exactly: Value-Digits times ten to the
// Exponent. This crate knows numbers alone, and nothing of bytes.
#![tactic(auto)]

ghost use Rattle.std.specs.Prelude.{◌≡◌, ◌*◌, ◌^◌, pos, nat_abs};
ghost use Rattle.refusal.specs.Answer.{answer_of};
ghost use Rattle.unit_value.specs.UnitValues.{order, in_range, tens, scaled, magnitude, compared};

use refusal::Refusal;
use std::cmp::Ordering;

/// A Unit-Value. Where the Exponent is absent it is 0.
#[derive(Clone, Copy, Debug, PartialEq, Eq)]
pub struct UnitValue {
    pub digits: i64,
    pub exponent: i32,
}

impl UnitValue {
    /// The least and the greatest Exponent that is taken.
    pub const LEAST_EXPONENT: i32 = -18;

    pub const GREATEST_EXPONENT: i32 = 18;

    // Its magnitude times ten to the 18.
    #[tactic(auto, using(crate::proofs::Signs::scaled_magnitude))]
    fn magnitude(self) -> Magnitude
        ensures { magnitude result ≡ nat_abs (scaled self) }
    {
        Magnitude {
            digits: signed::magnitude(self.digits),
            tens: tens(self.exponent),
        }
    }
}

// `digits` times ten to the `tens`.
#[derive(Clone, Copy)]
struct Magnitude {
    digits: u64,
    tens: u32,
}

#[tactic(auto, unfolding(crate::specs::UnitValues::in_range))]
fn in_range(exponent: i32) -> bool
    ensures { result ≡ in_range exponent }
{
    (UnitValue::LEAST_EXPONENT..=UnitValue::GREATEST_EXPONENT).contains(&exponent)
}

// How often ten is taken, that the value times ten to the 18 is a whole number.
#[tactic(auto, unfolding(crate::specs::UnitValues::tens))]
fn tens(exponent: i32) -> u32
    ensures { result ≡ tens exponent }
{
    exponent.abs_diff(UnitValue::LEAST_EXPONENT)
}

// How `m` times ten to the `k` stands to `n`. No product passes `n`, so none overflows.
#[tactic(auto, using(crate::proofs::Wholes::natural, crate::proofs::Powers::ten_more))]
fn order_to(mut m: u64, k: u32, n: u64) -> Ordering
    ensures { result ≡ order (pos (m * 10 ^ k)) (pos n) }
{
    for _ in 0..k {
        if n / 10 < m {
            return Ordering::Greater;
        }
        m *= 10;
    }
    m.cmp(&n)
}

impl Magnitude {
    // How it stands to another: the power of ten that both have is left out.
    #[tactic(auto, using(crate::proofs::Powers::shared, crate::proofs::Powers::shared_back))]
    fn order(self, other: Magnitude) -> Ordering
        ensures { result ≡ order (pos (magnitude self)) (pos (magnitude other)) }
    {
        if other.tens <= self.tens {
            order_to(self.digits, self.tens - other.tens, other.digits)
        } else {
            order_to(other.digits, other.tens - self.tens, self.digits).reverse()
        }
    }
}

// How two values stand: by their signs, and where these are the same by their magnitudes.
#[tactic(auto, using(crate::proofs::Signs::signs))]
fn order_values(a: UnitValue, b: UnitValue) -> Ordering
    ensures { result ≡ order (scaled a) (scaled b) }
{
    match (0 <= a.digits, 0 <= b.digits) {
        (true, true) => a.magnitude().order(b.magnitude()),
        (true, false) => Ordering::Greater,
        (false, true) => Ordering::Less,
        (false, false) => b.magnitude().order(a.magnitude()),
    }
}

/// How `a` stands to `b`, exactly.
#[tactic(auto, unfolding(crate::specs::UnitValues::compared))]
pub fn compare(a: UnitValue, b: UnitValue) -> Result<Ordering, Refusal>
    ensures { answer_of result ≡ compared a b }
{
    if in_range(a.exponent) && in_range(b.exponent) {
        Ok(order_values(a, b))
    } else {
        Err(Refusal::BadExponent)
    }
}
