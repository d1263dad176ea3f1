ghost use Rattle.std.specs.Prelude.{◌≡◌, ℕ, List, [], ◌∷◌};
ghost use Rattle.std.specs.Result.{result_ok};
ghost use Rattle.message.specs.Format.{said};
ghost use Rattle.borrower.specs.Outcomes.{effect, recorded_by, sent_by, answered, turned_away, told};

use journal::record::Record;
use message::form::Message;
use message::kind::Kind;
use message::refusal::Refusal;

/// What a borrower may be called to do with a part.
#[derive(Clone, Copy, Debug, PartialEq, Eq)]
pub enum Call {
    Ask(Kind),
    Show,
    Write,
    Forget,
}

/// What comes of a call or a message: the record that has to be in the journal, synced, before anything leaves;
/// what is sent, with the bytes of a part beside it where it is a write; what the writer is told; and the answer.
#[derive(Clone, Copy, Debug, PartialEq, Eq)]
pub struct Outcome {
    pub record: Option<Record>,
    pub send: Option<Message>,
    pub told: Option<Message>,
    pub answer: Result<(), Refusal>,
}

impl Outcome {
    // Nothing is sent or told: only an answer.
    pub(crate) fn answering(due: Option<Record>, answer: Result<(), Refusal>) -> Outcome
        ensures { (v : List ℕ) → effect v result ≡ record { records = recorded_by due; sends = []; tells = []; answer = answer } }
    {
        Outcome {
            record: due,
            send: None,
            told: None,
            answer,
        }
    }

    // This is sent, or it is refused.
    pub(crate) fn sending(due: Option<Record>, message: Result<Message, Refusal>) -> Outcome
        ensures { (v : List ℕ) → effect v result ≡ record { records = recorded_by due; sends = sent_by v (result_ok message); tells = []; answer = answered message } }
    {
        Outcome {
            send: message.ok(),
            ..Outcome::answering(due, message.map(|_| ()))
        }
    }

    // The writer is told this; no part changes.
    pub(crate) fn telling(message: Message) -> Outcome
        ensures { effect [] result ≡ told (said [] message) }
    {
        Outcome {
            told: Some(message),
            ..Outcome::answering(None, Ok(()))
        }
    }

    // What is no message for this borrower.
    pub(crate) fn turned_away() -> Outcome
        ensures { effect [] result ≡ turned_away }
    {
        Outcome::answering(None, Err(Refusal::Malformed))
    }
}
