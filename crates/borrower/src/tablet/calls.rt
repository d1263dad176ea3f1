ghost use Rattle.std.specs.Prelude.{◌≡◌, ℕ, List};
ghost use Rattle.borrower.specs.Steps.{settled, released};
ghost use Rattle.borrower.specs.Tablets.{part_at, filed_at};
ghost use Rattle.borrower.specs.Outcomes.{effect, Stepped, asked_part, written_part, ask_effect, show_effect, write_effect, forget_effect, call_effect, call_part};

use crate::hold::{Asked, Timing};
use crate::outcome::{Call, Outcome};
use crate::tablet::Tablet;
use message::form::{Ask, Message};
use message::kind::Kind;
use message::refusal::Refusal;
use part::head::Head;
use part::place::Place;

impl Tablet {
    // What tells whether its copies are valid at this clock reading.
    fn timing(&self, clock: u64) -> Timing
        ensures { result ≡ record { clock = clock; short = self.now.short } }
    {
        let short = self.short;
        Timing { clock, short }
    }

    /// Asks for a part.
    pub fn ask(&mut self, clock: u64, place: Place, kind: Kind) -> Outcome
        ensures effect { (v : List ℕ) → effect v result ≡ ask_effect self.old.who.id place.at kind clock self.old.short (part_at self.old place.at) (filed_at self.old place.at) }
        ensures left { Stepped self.old self.new place.at (asked_part clock self.old.short (part_at self.old place.at)) }
    {
        let who = self.who;
        let (next, answer) = self.part(place).ask(self.timing(clock));
        let record = self.keep(place, next);
        let message = answer.map(|Asked { number, written }| {
            let head = Head { who, place, number };
            Message::Ask(Ask {
                head,
                kind,
                written,
            })
        });
        Outcome::sending(record, message)
    }

    /// Whether the copy of a part may be shown; `copy` then gives its bytes.
    pub fn show(&mut self, clock: u64, place: Place) -> Outcome
        ensures effect { (v : List ℕ) → effect v result ≡ show_effect place.at clock self.old.short (part_at self.old place.at) (filed_at self.old place.at) }
        ensures left { Stepped self.old self.new place.at (settled clock self.old.short (part_at self.old place.at)) }
    {
        let part = self.part(place);
        // A copy is shown again and again: while it is valid, nothing of the part is compared or written.
        if !part.is_stale(self.timing(clock)) {
            return Outcome::answering(None, part.show());
        }
        let record = self.keep(place, part.release());
        Outcome::answering(record, Err(Refusal::NoCopy))
    }

    /// Writes a part. The bytes go out beside the message, and the copy is released.
    pub fn write(&mut self, clock: u64, place: Place) -> Outcome
        ensures effect { (v : List ℕ) → effect v result ≡ write_effect self.old.who.id place.at v clock self.old.short (part_at self.old place.at) (filed_at self.old place.at) }
        ensures left { Stepped self.old self.new place.at (written_part clock self.old.short (part_at self.old place.at)) }
    {
        let who = self.who;
        let (next, answer) = self.part(place).write(self.timing(clock));
        let record = self.keep(place, next);
        let message = answer.map(|number| Message::Write(Head { who, place, number }));
        Outcome::sending(record, message)
    }

    /// Lets go of the copy of a part, if there is one.
    pub fn forget(&mut self, place: Place) -> Outcome
        ensures effect { (v : List ℕ) → effect v result ≡ forget_effect place.at (part_at self.old place.at) (filed_at self.old place.at) }
        ensures left { Stepped self.old self.new place.at (released (part_at self.old place.at)) }
    {
        let next = self.part(place).release();
        Outcome::answering(self.keep(place, next), Ok(()))
    }

    /// Any call.
    // The reading, the part and the call stay three: the clock is the caller's, and only the others come with a line.
    pub fn perform(&mut self, clock: u64, place: Place, call: Call) -> Outcome
        ensures effect { (v : List ℕ) → effect v result ≡ call_effect self.old.who.id place.at v clock self.old.short call (part_at self.old place.at) (filed_at self.old place.at) }
        ensures left { Stepped self.old self.new place.at (call_part clock self.old.short call (part_at self.old place.at)) }
    {
        match call {
            Call::Ask(kind) => self.ask(clock, place, kind),
            Call::Show => self.show(clock, place),
            Call::Write => self.write(clock, place),
            Call::Forget => self.forget(place),
        }
    }
}
