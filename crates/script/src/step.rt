ghost use Rattle.std.specs.Prelude.{◌≡◌};
ghost use Rattle.std.specs.Option.{option_map};
ghost use Rattle.script.specs.Scripts.{plain, step_of};

use crate::step::forms::*;
use crate::step::parts::blank;
use lines::words::{is, split};
use message::kind::Kind;
use part::place::Place;
use site::event::{Borrower, Node};

mod forms;
mod parts;

/// What a borrower is asked to do with a part.
// The borrower's own `Call` does not carry the bytes of a write, which stand in the line.
#[derive(Clone, Copy, Debug, PartialEq, Eq)]
pub enum Act {
    /// Ask for it.
    Ask(Kind),
    /// Show its copy.
    Show,
    /// Write these bytes.
    Write([u8; 1024]),
    /// Let its copy go.
    Forget,
}

/// What a line of the script asks for. `P` is how a part is named.
// `Blank` is a value here: an option would make an option of an option of what may be no line at all.
#[derive(Clone, Copy, Debug, PartialEq, Eq)]
pub enum Step<P> {
    /// Nothing: the line is passed over.
    Blank,
    /// What the clocks show at first.
    Set {
        keeper: u64,
        borrowers: [u64; 4],
    },
    /// The rehearsal starts over.
    Anew,
    /// The true time goes on, and each clock by as much as is said of it: first the keeper's.
    Tick {
        time: u64,
        by: [u64; 5],
    },
    /// Somebody comes up.
    Up(Node),
    /// Somebody goes down.
    Stop(Node),
    /// A borrower is called, and may stop with so many bytes of its file written.
    Call {
        who: Borrower,
        place: P,
        act: Act,
        torn: Option<u64>,
    },
    /// A message arrives, perhaps cut short or at somebody else, who may stop with so many bytes of the file written.
    Deliver {
        message: u64,
        cut: Option<u64>,
        to: Option<Node>,
        torn: Option<u64>,
    },
}

/// What a line says, where it is in one of the forms.
pub fn parse(line: &[u8]) -> Option<Step<Place>>
    ensures { option_map plain result ≡ step_of line.now }
{
    if blank(line) {
        return Some(Step::Blank);
    }
    let (word, rest) = split(line);
    // The chain stays: of a `match` of the words the last arm's proof, over every way to leave it, didn't close.
    if is(word, b"set") {
        read_set(rest)
    } else if is(word, b"anew") {
        read_anew(rest)
    } else if is(word, b"tick") {
        read_tick(rest)
    } else if is(word, b"up") {
        read_up(rest)
    } else if is(word, b"stop") {
        read_stop(rest)
    } else if is(word, b"deliver") {
        read_deliver(rest)
    } else {
        read_call(word, rest)
    }
}
