// How many bytes of ASCII are at the front of a text, for speed, since most texts are mostly ASCII. A byte of UTF8-1 is a
// character, so to pass a run of them, eight words at once and then one, changes no answer. This crate knows nothing of
// Diameter.
#![tactic(auto)]

ghost use Rattle.std.specs.Prelude.{◌≡◌, ◌*◌, ◌&&◌, true, leb, fold};
ghost use Rattle.ascii.specs.Ascii.{ascii_run, all_ascii};

/// How many bytes at the front are UTF8-1.
pub fn run(s: &[u8]) -> usize
    ensures { result ≡ ascii_run s.now }
{
    let mut at: usize = 0;
    while words::<8>(&s[at..]) {
        at += 32;
    }
    while words::<1>(&s[at..]) {
        at += 4;
    }
    while at < s.len() && rfc3629::is_utf8_1(s[at]) {
        at += 1;
    }
    at
}

// Are there N words of them?
fn words<const N: usize>(s: &[u8]) -> bool
    ensures { result ≡ leb (4 * N) (ascii_run s.now) }
{
    let (words, _) = s.as_chunks::<4>();
    N <= words.len() && each(&words[..N])
}

// Is each word ASCII? No test branches, so that the compiler asks several words at once.
fn each(words: &[[u8; 4]]) -> bool
    ensures { result ≡ fold (λ all word. all && all_ascii word) true words.now }
{
    words.iter().fold(true, |all, word| all & four(*word))
}

// The four are taken as one word, since the compiler makes one test of it.
fn four(b: [u8; 4]) -> bool
    ensures { result ≡ all_ascii b }
{
    rfc3629::is_utf8_1(b[0])
        & rfc3629::is_utf8_1(b[1])
        & rfc3629::is_utf8_1(b[2])
        & rfc3629::is_utf8_1(b[3])
}
