// What was added for speed. No two lines of the syntax share a first byte, so the first byte says which line may match,
// and to ask that one alone changes no answer.
ghost use Rattle.std.specs.Prelude.{◌≡◌, cond, [], ◌∷◌, ◌≤◌};
ghost use Rattle.rfc3629.specs.Syntax.{Utf8_3};
ghost use Rattle.rfc3629.specs.Utf8.{matches_any, char_size};

// UTF8-char   = UTF8-1 / UTF8-2 / UTF8-3 / UTF8-4
// How many bytes the one at the front takes; 0 where there is none.
pub(super) fn char_size(s: &[u8]) -> usize
    ensures { result ≡ char_size s.now }
{
    match *s {
        [a, ..] if rfc3629::is_utf8_1(a) => 1,
        [a, b, ..] if a <= 0xDF => size_if(rfc3629::is_utf8_2(a, b), 2),
        [a, b, c, ..] if a <= 0xEF => size_if(is_utf8_3(a, b, c), 3),
        [a, b, c, d, ..] => size_if(rfc3629::is_utf8_4(a, b, c, d), 4),
        _ => 0,
    }
}

// The size that a line has, where it matches.
fn size_if(matches: bool, size: usize) -> usize
    ensures { result ≡ cond matches size 0 }
{
    if matches { size } else { 0 }
}

// UTF8-3 where the first byte is E0 to EF: two tails follow it, and E0 and ED alone ask for more.
fn is_utf8_3(a: u8, b: u8, c: u8) -> bool
    requires le_a { 0xE0 ≤ a }
    requires a_bound { a ≤ 0xEF }
    ensures { result ≡ matches_any Utf8_3 (a ∷ b ∷ c ∷ []) }
{
    if (a == 0xE0) | (a == 0xED) {
        return rfc3629::is_utf8_3(a, b, c);
    }
    rfc3629::is_tail(b) & rfc3629::is_tail(c)
}
