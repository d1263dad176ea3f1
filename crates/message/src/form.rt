ghost use Rattle.std.specs.Prelude.{◌≡◌};
ghost use Rattle.message.specs.Format.{size_of, place_of};

use crate::kind::Kind;
use part::head::Head;
use part::place::Place;
use part::who::Who;

/// What a borrower asks for: a part, for reading or for writing. `written` is the number of its last write of the part.
#[derive(Clone, Copy, Debug, PartialEq, Eq)]
pub struct Ask {
    pub head: Head,
    pub kind: Kind,
    pub written: u32,
}

/// A message. The 1,024 bytes of a part that a loan or a write carries stand beside it:
/// in the bytes that it was read from, or in the part that is lent where it is written.
// So they stay two parameters: an enum that holds both a reference and a number with its bound gets no proof.
#[derive(Clone, Copy, Debug, PartialEq, Eq)]
pub enum Message {
    /// a borrower asks for a part
    Ask(Ask),
    /// the keeper lends a part, under the number of the ask
    Loan { head: Head, kind: Kind },
    /// a borrower writes a part
    Write(Head),
    /// the write of this number is applied
    In(Head),
    /// the write of this number is void
    Void(Head),
    /// the keeper wants a part back
    Recall { who: Who, place: Place },
    /// a borrower gives back what it was lent for asks up to this number
    Back(Head),
}

/// Bytes that are no message.
#[derive(Clone, Copy, Debug, PartialEq, Eq)]
pub struct Malformed;

impl Message {
    /// How many bytes it has.
    pub fn size(&self) -> usize
        ensures { result ≡ size_of self.now }
    {
        match self {
            Message::Ask(_) => 13,
            Message::Loan { .. } => 1033,
            Message::Write(_) => 1032,
            Message::In(_) | Message::Void(_) | Message::Back(_) => 8,
            Message::Recall { .. } => 4,
        }
    }

    /// The part that it is about.
    pub fn place(self) -> Place
        ensures { result.at ≡ place_of self }
    {
        match self {
            Message::Ask(ask) => ask.head.place,
            Message::Loan { head, .. }
            | Message::Write(head)
            | Message::In(head)
            | Message::Void(head)
            | Message::Back(head) => head.place,
            Message::Recall { place, .. } => place,
        }
    }
}
