ghost use Rattle.std.specs.Prelude.{◌≡◌, ◌∷◌, ◌==◌, position};
ghost use Rattle.std.specs.Str.{bytes_eq};
ghost use Rattle.lines.specs.Words.{words, rest_words};

use memchr::memchr;

const SPACE: u8 = b' ';

/// Where the first mark stands in a text, where there is one.
pub fn find(text: &[u8], mark: u8) -> Option<usize>
    ensures { result ≡ position (λ b. b == mark) text.now }
{
    memchr(mark, text)
}

/// The first word of a text, and what stands behind the space that ends it, where there is a space.
pub fn split(text: &[u8]) -> (&[u8], Option<&[u8]>)
    ensures { words text.now ≡ result.0.now ∷ rest_words result.1 }
{
    match find(text, SPACE) {
        Some(end) => (&text[..end], Some(&text[end + 1..])),
        None => (text, None),
    }
}

/// The word is this text.
// It stays: `==` takes two slices, so that each caller would write `word == b"..".as_slice()`.
pub fn is(word: &[u8], text: &[u8]) -> bool
    ensures { result ≡ bytes_eq word.now text.now }
{
    word == text
}
