// Steps over the AVPs of a payload without entering groups, from a place on: to the next, or to the first with a code.
#![tactic(auto)]

ghost use Rattle.std.specs.Prelude.{◌≡◌, drop};
ghost use Rattle.octets.specs.Run.{item};
ghost use Rattle.rfc6733.specs.Records.{unentered};
ghost use Rattle.rfc6733.specs.Search.{outline};
ghost use Rattle.steps.specs.Steps.{Standing, Stops, onto, step_at, find_at, found_of};

use avp::AVP;
use record::outline::Outline;
use refusal::Refusal;

/// What a reader finds: an AVP, the place at which none is complete, or the end.
#[derive(Clone, Copy, Debug, PartialEq, Eq)]
pub enum Step {
    At(Outline),
    Broken,
    End,
}

impl Step {
    /// The same of a message: the end is none, and the failing place a refusal.
    pub fn answer(self) -> Result<Option<Outline>, Refusal>
        ensures { result ≡ found_of self }
    {
        match self {
            Step::At(o) => Ok(Some(o)),
            Step::Broken => Err(Refusal::NotTiled),
            Step::End => Ok(None),
        }
    }
}

/// What is found, and where the reader then stands.
#[derive(Clone, Copy, Debug, PartialEq, Eq)]
pub struct Stepped {
    pub found: Step,
    pub place: usize,
}

// The AVP `a`, which stands at `at`, and the place past it.
fn step_over(payload: &[u8], at: usize, a: AVP) -> Stepped
    requires { Standing payload.now at a }
    ensures { result ≡ onto (outline at (item unentered (drop at payload.now))) }
{
    let padding = at + a.length;
    let next = at + a.size;
    let found = Outline {
        code: a.code,
        flags: a.flags,
        length: a.length as u32,
        vendor: a.vendor_id,
        place: at + a.header_size(),
        padding: (a.size - a.length) as u8,
        pads: front::pads(&payload[padding..next]),
    };
    Stepped {
        found: Step::At(found),
        place: next,
    }
}

/// The AVP at `place`, and the place past it. The place stays where there is none, and so does one past the end.
pub fn step_at(payload: &[u8], place: usize) -> Stepped
    ensures { result ≡ step_at payload.now place }
{
    if payload.len() <= place {
        return Stepped {
            found: Step::End,
            place,
        };
    }
    let Some(a) = front::first_avp(&payload[place..]) else {
        return Stepped {
            found: Step::Broken,
            place,
        };
    };
    step_over(payload, place, a)
}

// Where a search for a code stops: at an AVP that has it, where none is complete, or at the end. Of the AVPs that it passes the headers
// alone are read.
fn seek(payload: &[u8], place: usize, code: u32) -> usize
    ensures { Stops code payload.now place result }
{
    let mut at = place;
    while at < payload.len() {
        let Some(a) = front::first_avp(&payload[at..]) else {
            return at;
        };
        if a.code == code {
            return at;
        }
        at += a.size;
    }
    at
}

/// The first AVP with this code from `place` on, and the place past it.
pub fn find_from(payload: &[u8], place: usize, code: u32) -> Stepped
    ensures { result ≡ find_at code payload.now place }
{
    let s = step_at(payload, seek(payload, place, code));
    match s.found {
        Step::At(_) => s,
        found => Stepped { found, place },
    }
}
