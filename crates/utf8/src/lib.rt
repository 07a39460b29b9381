// Is a text well-formed UTF-8, and if not, up to where? The byte ranges of RFC 3629, section 4, decide, and the crate
// rfc3629 has them; here a text is read by them from the front, and first_byte.rt and the crate ascii are for speed.
// This crate knows nothing of Diameter.
#![tactic(auto)]

mod first_byte;

ghost use Rattle.std.specs.Prelude.{◌≡◌};
ghost use Rattle.rfc3629.specs.Utf8.{well_formed};
ghost use Rattle.utf8.specs.Checked.{checked};

/// A text is ill-formed.
#[derive(Clone, Copy, Debug, PartialEq, Eq)]
pub struct Utf8Error {
    /// The length in bytes of the longest prefix that is well-formed.
    pub valid_up_to: usize,
}

// UTF8-octets = *( UTF8-char )
pub fn check(s: &[u8]) -> Result<(), Utf8Error>
    ensures { result ≡ checked s.now }
{
    let mut at = 0;
    while at < s.len() {
        let rest = &s[at..];
        // for speed: without these lines the answer is the same
        if rfc3629::is_utf8_1(rest[0]) {
            at += ascii::run(rest);
            continue;
        }
        let size = first_byte::char_size(rest);
        if size == 0 {
            return Err(Utf8Error { valid_up_to: at });
        }
        at += size;
    }
    Ok(())
}

pub fn is_utf8(s: &[u8]) -> bool
    ensures { result ≡ well_formed s.now }
{
    check(s).is_ok()
}
