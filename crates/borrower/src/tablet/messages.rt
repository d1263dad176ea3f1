ghost use Rattle.std.specs.Prelude.{◌≡◌, ◌==◌, if◌then◌else◌, [], Some};
ghost use Rattle.message.specs.Format.{Loan, Recall, said};
ghost use Rattle.message.specs.Reading.{read};
ghost use Rattle.borrower.specs.Tablets.{part_at, filed_at};
ghost use Rattle.borrower.specs.Outcomes.{effect, told, turned_away, heard_effect, Heard};

use crate::outcome::Outcome;
use crate::tablet::Tablet;
use message::decode::{carried_part, decode};
use message::form::Message;
use message::kind::Kind;
use part::head::Head;
use part::place::Place;
use part::who::Who;

impl Tablet {
    // A loan comes.
    fn on_loan(&mut self, head: Head, kind: Kind, bytes: &[u8; 1024]) -> Outcome
        ensures effect { effect [] result ≡ heard_effect self.old.who.id (Some (Loan head.who.id head.place.at head.number kind bytes.now)) (part_at self.old) (filed_at self.old) }
        ensures left { Heard self.old self.new (Some (Loan head.who.id head.place.at head.number kind bytes.now)) }
    {
        if head.who != self.who {
            return Outcome::turned_away();
        }
        let (next, answer) = self.part(head.place).on_loan(head.number, kind);
        let record = self.keep(head.place, next);
        if answer.is_ok() {
            self.put_copy(head.place, bytes);
        }
        Outcome::answering(record, answer)
    }

    // A recall comes.
    fn on_recall(&mut self, who: Who, place: Place) -> Outcome
        ensures effect { effect [] result ≡ heard_effect self.old.who.id (Some (Recall who.id place.at)) (part_at self.old) (filed_at self.old) }
        ensures left { Heard self.old self.new (Some (Recall who.id place.at)) }
    {
        if who != self.who {
            return Outcome::turned_away();
        }
        let (next, number) = self.part(place).on_recall();
        let record = self.keep(place, next);
        Outcome::sending(record, Ok(Message::Back(Head { who, place, number })))
    }

    // The writer is told what became of its write.
    fn on_written(&self, head: Head, message: Message) -> Outcome
        ensures { effect [] result ≡ if head.who.id == self.now.who.id then told (said [] message) else turned_away }
    {
        if head.who != self.who {
            return Outcome::turned_away();
        }
        Outcome::telling(message)
    }

    /// A message comes. What is no message, or none for this borrower, is refused by 1.
    pub fn receive(&mut self, bytes: &[u8]) -> Outcome
        ensures effect { effect [] result ≡ heard_effect self.old.who.id (read bytes.now) (part_at self.old) (filed_at self.old) }
        ensures left { Heard self.old self.new (read bytes.now) }
    {
        let Ok(message) = decode(bytes) else {
            return Outcome::turned_away();
        };
        match message {
            Message::Loan { head, kind } => match carried_part(bytes) {
                Some(part) => self.on_loan(head, kind, part),
                None => Outcome::turned_away(),
            },
            Message::Recall { who, place } => self.on_recall(who, place),
            Message::In(head) | Message::Void(head) => self.on_written(head, message),
            Message::Ask(_) | Message::Write(_) | Message::Back(_) => Outcome::turned_away(),
        }
    }
}
