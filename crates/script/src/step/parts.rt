ghost use Rattle.std.specs.Prelude.{◌≡◌, ℕ, List, Option};
ghost use Rattle.std.specs.Option.{option_map};
ghost use Rattle.lines.specs.Words.{rest_words};
ghost use Rattle.script.specs.Scripts.{is_blank, ended, fill_of, borrower_of, node_of, zeros, bytes_of, keyed, torn_of, Reads};

use lines::decimal::number;
use lines::hex::decode;
use lines::words::{is, split};
use site::event::{Borrower, Node};

// The line is passed over.
pub(super) fn blank(line: &[u8]) -> bool
    ensures { result ≡ is_blank line.now }
{
    match line {
        [] => true,
        [first, ..] => *first == b'#',
    }
}

// No word is left.
pub(super) fn over(rest: Option<&[u8]>) -> bool
    ensures { result ≡ ended (rest_words rest.entry) }
{
    rest.is_none()
}

// Reads a number for each place, as far as there are words; none where a word is no number or has no place.
pub(super) fn fill(rest: Option<&[u8]>, out: &mut [u64]) -> Option<()>
    ensures { option_map (λ _. out.new) result ≡ fill_of (rest_words rest.entry) out.old }
{
    let mut rest = rest;
    // What is left is moved on by hand: of what is written through a `zip` with the words a proof knows nothing.
    for slot in out.iter_mut() {
        let Some(text) = rest else {
            return Some(());
        };
        let (word, more) = split(text);
        *slot = number(word)?;
        rest = more;
    }
    over(rest).then_some(())
}

// The borrower of this number.
pub(super) fn borrower(word: &[u8]) -> Option<Borrower>
    ensures { result ≡ borrower_of word.now }
{
    Borrower::new(number(word)?)
}

// Who is meant: the keeper, or a borrower.
pub(super) fn node(word: &[u8]) -> Option<Node>
    ensures { result ≡ node_of word.now }
{
    // A test stays: of one word, a `match` would be a line longer, and its proof didn't close.
    if is(word, b"keeper") {
        return Some(Node::Keeper);
    }
    borrower(word).map(Node::Borrower)
}

// What a reader makes of the word behind a key, where the key comes next, and what is left.
pub(super) fn keyed<'a, T, F: Fn(&[u8]) -> Option<T>>(
    rest: Option<&'a [u8]>,
    key: &[u8],
    read: F,
) -> Option<(Option<T>, Option<&'a [u8]>)>
    requires { F.IsAlwaysCallable read }
    ensures { (of : List ℕ → Option T) → Reads (F.post read) of → option_map (λ x. (x.0, rest_words x.1)) result ≡ keyed of key.now (rest_words rest.entry) }
{
    let Some(text) = rest else {
        return Some((None, rest));
    };
    let (word, more) = split(text);
    if !is(word, key) {
        return Some((None, rest));
    }
    let (word, more) = split(more?);
    Some((Some(read(word)?), more))
}

// How many bytes are left of what was being appended, where the line ends by `stop` and that number.
pub(super) fn torn(rest: Option<&[u8]>) -> Option<Option<u64>>
    ensures { result ≡ torn_of (rest_words rest.entry) }
{
    let (count, more) = keyed(rest, b"stop", number)?;
    over(more).then_some(count)
}

// A part of zeros.
fn blank_part() -> [u8; 1024]
    ensures { result ≡ zeros }
{
    [0; 1024]
}

// The bytes of a part, of which the first are given.
pub(super) fn bytes(word: &[u8]) -> Option<[u8; 1024]>
    ensures { result ≡ bytes_of word.now }
{
    let mut bytes = blank_part();
    (decode(word, &mut bytes)? <= bytes.len()).then_some(bytes)
}
