// A reader that holds a message's payload and its place in it, and steps over AVPs without entering groups.
// The borrow checker covers no function over a struct that holds a reference, so its methods are thin: each takes the struct apart and
// calls a covered function on the slice and the number. `find` serves a caller that has a message and a code.
#![tactic(auto)]

ghost use Rattle.std.specs.Prelude.{◌≡◌};
ghost use Rattle.rfc6733.specs.Header.{header_size};
ghost use Rattle.rfc6733.specs.Search.{sought};
ghost use Rattle.refusal.specs.Answer.{answer_of};
ghost use Rattle.steps.specs.Steps.{step_at, find_at};
ghost use Rattle.reader.specs.Reading.{step_of, find_of, Went};

use header::Header;
use record::outline::Outline;
use refusal::Refusal;
use steps::{Step, Stepped};

/// The payload, with the message's header still before it, so that places count from the message's first byte; and where in it the
/// next AVP stands.
#[derive(Clone, Copy)]
pub struct Reader<'a> {
    pub payload: &'a [u8],
    pub place: usize,
}

impl<'a> Reader<'a> {
    /// A fresh one, over the bytes of a message: the header's 20, and the payload up to the message's length.
    pub fn new(message: &'a [u8]) -> Reader<'a>
        ensures { (result.payload ≡ message.entry) × (result.place ≡ header_size) }
    {
        Reader {
            payload: message,
            place: Header::SIZE,
        }
    }

    /// The next AVP, past which the reader moves. Where there is none it stays.
    pub fn next<'s>(&'s mut self) -> Step
        ensures { Went self.old (step_of self.old) result self.new }
    {
        let s = steps::step_at(self.payload, self.place);
        self.place = s.place;
        s.found
    }

    /// The first AVP with this code from where the reader stands, past which it moves. Where there is none it stays.
    pub fn find<'s>(&'s mut self, code: u32) -> Step
        ensures { Went self.old (find_of code self.old) result self.new }
    {
        let s = steps::find_from(self.payload, self.place, code);
        self.place = s.place;
        s.found
    }
}

// The question on a fresh reader.
fn ask(message: &[u8], code: u32) -> Step
    ensures { result ≡ (find_at code message.now header_size).found }
{
    let mut r = Reader::new(message);
    r.find(code)
}

/// The AVP at `place` of a message, and where a reader that stood there then stands.
pub fn next(message: &[u8], place: usize) -> Stepped
    ensures { result ≡ step_at message.now place }
{
    let mut r = Reader {
        payload: message,
        place,
    };
    let found = r.next();
    Stepped {
        found,
        place: r.place,
    }
}

/// The first AVP with this code at the top level of the message at the front of `input`. All of the message must be there.
pub fn find(input: &[u8], code: u32) -> Result<Option<Outline>, Refusal>
    ensures { answer_of result ≡ sought code input.now }
{
    let length = Header::parse(input)?.header.length as usize;
    ask(&input[..length], code).answer()
}
