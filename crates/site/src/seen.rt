ghost use Rattle.std.specs.Prelude.{◌≡◌, None, if◌then◌else◌};

use message::form::Message;
use message::refusal::Refusal;

/// What is answered to an event.
#[derive(Clone, Copy, Debug, PartialEq, Eq)]
pub enum Answer {
    /// It is done, or refused by a number.
    Given(Result<(), Refusal>),
    /// Who it is for is down: it is lost.
    Down,
    /// Who it is for stopped in its midst.
    Stopped,
}

/// What is seen of an event, but for the messages that are sent: what a writer is told, and the answer.
#[derive(Clone, Copy, Debug, PartialEq, Eq)]
pub struct Seen {
    pub told: Option<Message>,
    pub answer: Answer,
}

impl Seen {
    /// Only an answer.
    pub fn only(answer: Answer) -> Seen
        ensures { result ≡ record { told = None; answer = answer } }
    {
        Seen { told: None, answer }
    }
}

/// The answer of somebody who stops in the midst of it, if it was up.
pub fn stopped(was_up: bool) -> Answer
    ensures { result ≡ (if was_up then Answer.Stopped else Answer.Down) }
{
    if was_up {
        Answer::Stopped
    } else {
        Answer::Down
    }
}

/// What is seen of a call to show a part.
#[derive(Clone, Copy, Debug, PartialEq, Eq)]
pub enum Shown {
    /// The copy, which may be shown.
    Copy([u8; 1024]),
    /// It may not be shown.
    Refused(Refusal),
    /// Who it is for is down: it is lost.
    Down,
}
