ghost use Rattle.std.specs.Prelude.{◌≡◌, ℕ, List, [], ◌∷◌};
ghost use Rattle.message.specs.Format.{said, place_of};
ghost use Rattle.lender.specs.Answers.{ask_refusal, write_refusal};
ghost use Rattle.lender.specs.Replies.{effect};

use journal::record::Record;
use message::form::Message;
use message::refusal::Refusal;
use part::place::Place;

/// What comes of an ask.
// An enum of its own stays: each answer has a reply of its own, and none is handed on as an error would be.
#[derive(Clone, Copy, Debug, PartialEq, Eq)]
pub enum AskAnswer {
    /// the part is lent; `voids` says that writes of the borrower become void
    Granted { voids: bool },
    /// the grace period lasts
    Quiet,
    /// leases of these borrowers bar it
    Barred { by: [bool; 32] },
    /// 4,096 leases run, or the clock is near its end
    Exhausted,
}

/// What comes of a write.
// An enum of its own stays, as of an ask: three of the answers that refuse differ in what is sent.
#[derive(Clone, Copy, Debug, PartialEq, Eq)]
pub enum WriteAnswer {
    /// the part has these bytes from now on
    Applied,
    /// it was applied before, and is answered again
    Again,
    /// it is void
    Void,
    /// nothing: its number is old, or no lease lets it
    Passed,
    /// the grace period lasts
    Quiet,
}

impl AskAnswer {
    /// The refusal, where it is one.
    pub fn result(&self) -> Result<(), Refusal>
        ensures { result ≡ ask_refusal self.now }
    {
        match self {
            AskAnswer::Granted { .. } => Ok(()),
            AskAnswer::Quiet => Err(Refusal::Quiet),
            AskAnswer::Barred { .. } => Err(Refusal::Barred),
            AskAnswer::Exhausted => Err(Refusal::Exhausted),
        }
    }
}

impl WriteAnswer {
    /// The refusal, where it is one.
    pub fn result(self) -> Result<(), Refusal>
        ensures { result ≡ write_refusal self }
    {
        match self {
            WriteAnswer::Applied => Ok(()),
            WriteAnswer::Again | WriteAnswer::Void | WriteAnswer::Passed => Err(
                Refusal::NotApplied,
            ),
            WriteAnswer::Quiet => Err(Refusal::Quiet),
        }
    }
}

/// What the keeper sends: nothing, one message, or a recall of a part to each borrower that is marked.
// Marks stand for the recalls: a list of messages would need memory, for want of which a step could fail.
#[derive(Clone, Copy, Debug, PartialEq, Eq)]
pub enum Sends {
    Nothing,
    One(Message),
    Recalls { place: Place, by: [bool; 32] },
}

/// What comes of a message: the record that has to be in the journal, synced, before anything leaves; what is sent; and
/// the answer. The bytes of a part that go with the record or the message are those that the part has then.
#[derive(Clone, Copy, Debug, PartialEq, Eq)]
pub struct Reply {
    pub record: Option<Record>,
    pub sends: Sends,
    pub answer: Result<(), Refusal>,
}

impl Reply {
    /// Nothing is to be in the journal, and nothing is sent.
    pub fn only(answer: Result<(), Refusal>) -> Reply
        ensures { (f : ℕ → List ℕ) → effect f result ≡ record { records = []; sends = []; answer = answer } }
    {
        Reply {
            record: None,
            sends: Sends::Nothing,
            answer,
        }
    }

    /// Nothing is to be in the journal, and one message is sent.
    pub fn sending(message: Message, answer: Result<(), Refusal>) -> Reply
        ensures { (f : ℕ → List ℕ) → effect f result ≡ record { records = []; sends = said (f (place_of message)) message ∷ []; answer = answer } }
    {
        Reply {
            sends: Sends::One(message),
            ..Reply::only(answer)
        }
    }
}
