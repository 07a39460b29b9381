// The byte ranges of RFC 3629, section 4, in their order, each line beside the RFC's own: is it a character of so many
// bytes? Tests are joined by `&` and `|`, which do not branch. This crate knows one character, and nothing of the text
// that it stands in.
#![tactic(auto)]

ghost use Rattle.std.specs.Prelude.{◌≡◌, [], ◌∷◌};
ghost use Rattle.rfc3629.specs.Abnf.{byte, range};
ghost use Rattle.rfc3629.specs.Syntax.{Utf8Tail, Utf8_1, Utf8_2, Utf8_3, Utf8_4};
ghost use Rattle.rfc3629.specs.Utf8.{within, matches_any};

/// UTF8-1      = %x00-7F
pub fn is_utf8_1(a: u8) -> bool
    ensures { result ≡ matches_any Utf8_1 (a ∷ []) }
{
    in_range(a, 0x00, 0x7F)
}

/// UTF8-2      = %xC2-DF UTF8-tail
pub fn is_utf8_2(a: u8, b: u8) -> bool
    ensures { result ≡ matches_any Utf8_2 (a ∷ b ∷ []) }
{
    in_range(a, 0xC2, 0xDF) & is_tail(b)
}

/// UTF8-3      = %xE0 %xA0-BF UTF8-tail / %xE1-EC 2( UTF8-tail ) /
///               %xED %x80-9F UTF8-tail / %xEE-EF 2( UTF8-tail )
pub fn is_utf8_3(a: u8, b: u8, c: u8) -> bool
    ensures { result ≡ matches_any Utf8_3 (a ∷ b ∷ c ∷ []) }
{
    (is_byte(a, 0xE0) & in_range(b, 0xA0, 0xBF) & is_tail(c))
        | (in_range(a, 0xE1, 0xEC) & is_tail(b) & is_tail(c))
        | (is_byte(a, 0xED) & in_range(b, 0x80, 0x9F) & is_tail(c))
        | (in_range(a, 0xEE, 0xEF) & is_tail(b) & is_tail(c))
}

/// UTF8-4      = %xF0 %x90-BF 2( UTF8-tail ) / %xF1-F3 3( UTF8-tail ) /
///               %xF4 %x80-8F 2( UTF8-tail )
pub fn is_utf8_4(a: u8, b: u8, c: u8, d: u8) -> bool
    ensures { result ≡ matches_any Utf8_4 (a ∷ b ∷ c ∷ d ∷ []) }
{
    (is_byte(a, 0xF0) & in_range(b, 0x90, 0xBF) & is_tail(c) & is_tail(d))
        | (in_range(a, 0xF1, 0xF3) & is_tail(b) & is_tail(c) & is_tail(d))
        | (is_byte(a, 0xF4) & in_range(b, 0x80, 0x8F) & is_tail(c) & is_tail(d))
}

/// UTF8-tail   = %x80-BF
pub fn is_tail(b: u8) -> bool
    ensures { result ≡ within Utf8Tail b }
{
    in_range(b, 0x80, 0xBF)
}

// %xB
fn is_byte(b: u8, value: u8) -> bool
    ensures { result ≡ within (byte value) b }
{
    b == value
}

// %xLOW-HIGH
fn in_range(b: u8, low: u8, high: u8) -> bool
    ensures { result ≡ within (range low high) b }
{
    (low <= b) & (b <= high)
}
