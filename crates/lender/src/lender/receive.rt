ghost use Rattle.std.specs.Prelude.{◌≡◌, ℕ, List, Some};
ghost use Rattle.message.specs.Format.{Write, Back};
ghost use Rattle.message.specs.Reading.{read};
ghost use Rattle.part.specs.Parts.{parts};
ghost use Rattle.lender.specs.Book.{book};
ghost use Rattle.lender.specs.Replies.{effect, turned_away, asked, effect_of, write_effect, heard_effect, heard_book, heard_parts};

use crate::answer::{AskAnswer, Reply, Sends, WriteAnswer};
use crate::lender::Lender;
use journal::record::Record;
use message::decode::{carried_part, decode};
use message::form::{Ask, Message};
use message::refusal::Refusal;
use part::files::Files;
use part::head::Head;

// What is no message for the keeper.
fn turned_away() -> Reply
    ensures { (f : ℕ → List ℕ) → effect f result ≡ turned_away }
{
    Reply::only(Err(Refusal::Malformed))
}

// The reply to an ask.
fn ask_reply(ask: &Ask, answer: AskAnswer) -> Reply
    ensures { (f : ℕ → List ℕ) → effect f result ≡ effect_of ask.now (f ask.now.head.place.at) answer }
{
    let Ask {
        head,
        kind,
        written,
    } = *ask;
    let result = answer.result();
    match answer {
        AskAnswer::Granted { voids: true } => Reply {
            record: Some(Record::VoidUpTo(Head {
                number: written,
                ..head
            })),
            ..Reply::sending(Message::Loan { head, kind }, result)
        },
        AskAnswer::Granted { voids: false } => Reply::sending(Message::Loan { head, kind }, result),
        AskAnswer::Barred { by } => Reply {
            sends: Sends::Recalls {
                place: head.place,
                by,
            },
            ..Reply::only(result)
        },
        AskAnswer::Quiet | AskAnswer::Exhausted => Reply::only(result),
    }
}

// The reply to a write.
fn write_reply(head: Head, answer: WriteAnswer) -> Reply
    ensures { (f : ℕ → List ℕ) → effect f result ≡ write_effect head.who.id head.place.at head.number (f head.place.at) answer }
{
    let result = answer.result();
    match answer {
        WriteAnswer::Applied => Reply {
            record: Some(Record::Applied(head)),
            ..Reply::sending(Message::In(head), result)
        },
        WriteAnswer::Again => Reply::sending(Message::In(head), result),
        WriteAnswer::Void => Reply::sending(Message::Void(head), result),
        WriteAnswer::Passed | WriteAnswer::Quiet => Reply::only(result),
    }
}

impl Lender {
    // An ask comes.
    fn on_ask(&mut self, clock: u64, ask: &Ask) -> Reply
        ensures effect { (f : ℕ → List ℕ) → effect f result ≡ heard_effect clock (Some (asked ask.now)) (book self.old) f }
        ensures book { book self.new ≡ heard_book clock (Some (asked ask.now)) (book self.old) }
    {
        let answer = self.ask(clock, ask);
        ask_reply(ask, answer)
    }

    // A write comes.
    fn on_write(&mut self, files: &mut Files, clock: u64, head: Head, bytes: &[u8; 1024]) -> Reply
        ensures effect { effect (parts files.new) result ≡ heard_effect clock (Some (Write head.who.id head.place.at head.number bytes.now)) (book self.old) (parts files.old) }
        ensures book { book self.new ≡ heard_book clock (Some (Write head.who.id head.place.at head.number bytes.now)) (book self.old) }
        ensures parts { parts files.new ≡ heard_parts clock (Some (Write head.who.id head.place.at head.number bytes.now)) (book self.old) (parts files.old) }
    {
        let answer = self.write(files, clock, head, bytes);
        write_reply(head, answer)
    }

    /// A message comes. What is no message, or none for the keeper, is refused by 1.
    pub fn receive(&mut self, files: &mut Files, clock: u64, bytes: &[u8]) -> Reply
        ensures effect { effect (parts files.new) result ≡ heard_effect clock (read bytes.now) (book self.old) (parts files.old) }
        ensures book { book self.new ≡ heard_book clock (read bytes.now) (book self.old) }
        ensures parts { parts files.new ≡ heard_parts clock (read bytes.now) (book self.old) (parts files.old) }
    {
        let Ok(message) = decode(bytes) else {
            return turned_away();
        };
        match message {
            Message::Ask(ask) => self.on_ask(clock, &ask),
            Message::Write(head) => {
                let Some(part) = carried_part(bytes) else {
                    return turned_away();
                };
                self.on_write(files, clock, head, part)
            }
            Message::Back(head) => {
                self.back(head);
                Reply::only(Ok(()))
            }
            Message::Loan { .. } | Message::In(_) | Message::Void(_) | Message::Recall { .. } => {
                turned_away()
            }
        }
    }
}
