ghost use Rattle.std.specs.Prelude.{◌≡◌, false};
ghost use Rattle.part.specs.Parts.{blank};
ghost use Rattle.borrowing.specs.Volatiles.{volatile_of};

use crate::durable::Durable;
use crate::hold::Part;
use crate::setting::Setting;
use crate::volatile::Volatile;
use journal::entry::Entry;
use journal::record::Owner;
use machine::effects::Effects;
use machine::input::{Call, Input};
use machine::machine::Machine;
use machine::notice::Notice;
use message::kind::Kind;
use message::refusal::Refusal;
use message::to_borrower::ToBorrower;
use message::to_keeper::ToKeeper;
use part::files::PART_SIZE;
use part::head::Head;
use part::place::Place;
use part::who::Who;
use std::alloc::{AllocError, Global};

/// A borrower with all its parts.
#[derive(Drop)]
pub struct Tablet {
    setting: Setting,
    durable: Durable,
    volatile: Volatile,
    is_up: bool,
    ghost no_copies: { is_up ≡ false → (volatile_of volatile).copies ≡ blank },
}

impl Tablet {
    ghost use Rattle.std.specs.Prelude.{true, length};
    ghost use Rattle.message.specs.Format.{Loan, Recall};
    ghost use Rattle.message.specs.Directions.{down_msg};
    ghost use Rattle.machine.specs.Inputs.{Ask, Show, Write, call_of};
    ghost use Rattle.machine.specs.Effects.{note_of};
    ghost use Rattle.borrowing.specs.Tablets.{beside, Left, Called, Forgotten, Heard, Told};

    /// The bytes of a copy; they may be shown only where a step said so.
    pub fn copy(&self, place: Place) -> &[u8; PART_SIZE]
        ensures bytes { result.now ≡ (beside self.now).copies place.at }
        ensures size { length result.now ≡ 1024 }
    {
        self.volatile.copy(place)
    }

    // A step leaves this of a part.
    fn leave(&mut self, place: Place, next: Part, out: &mut Effects)
        ensures { Left place.at next self.old self.new out.old out.new }
    {
        let part = self.volatile.part(place);
        self.durable.keep(place, part, next, out);
        self.volatile.set_part(place, next);
    }

    // Asks for a part.
    fn ask(
        &mut self,
        clock: u64,
        place: Place,
        kind: Kind,
        out: &mut Effects,
    ) -> Result<(), Refusal>
        ensures { Called clock (Ask place.at kind) self.old self.new out.old out.new result }
    {
        let time = self.setting.timing(clock);
        let (next, asked) = self.volatile.part(place).settle(time).ask(time);
        let answer = self.setting.send_ask(place, kind, asked, out);
        self.leave(place, next, out);
        answer
    }

    // Shows the copy of a part.
    fn show(&mut self, clock: u64, place: Place, out: &mut Effects) -> Result<(), Refusal>
        ensures { Called clock (Show place.at) self.old self.new out.old out.new result }
    {
        let part = self.volatile.part(place);
        if part.is_stale(self.setting.timing(clock)) {
            self.leave(place, part.release(), out);
            return Err(Refusal::NoCopy);
        }
        // A copy is shown again and again: while it is valid, nothing of the part is compared or
        // written.
        part.show()?;
        out.show(place);
        Ok(())
    }

    // Writes a part.
    fn write(
        &mut self,
        clock: u64,
        place: Place,
        part: &[u8; PART_SIZE],
        out: &mut Effects,
    ) -> Result<(), Refusal>
        ensures { Called clock (Write place.at part.now) self.old self.new out.old out.new result }
    {
        let time = self.setting.timing(clock);
        let (next, written) = self.volatile.part(place).settle(time).write();
        let answer = self.setting.send_write(place, part, written, out);
        self.leave(place, next, out);
        answer
    }

    // Lets go of the copy of a part, if there is one.
    fn forget(&mut self, place: Place, out: &mut Effects) -> Result<(), Refusal>
        ensures { Forgotten place.at self.old self.new out.old out.new result }
    {
        let next = self.volatile.part(place).release();
        self.leave(place, next, out);
        Ok(())
    }

    // A call, while it is up.
    fn call(&mut self, clock: u64, call: &Call<'_>, out: &mut Effects) -> Result<(), Refusal>
        ensures { Called clock (call_of call.now) self.old self.new out.old out.new result }
    {
        match call {
            Call::Ask { place, kind } => self.ask(clock, *place, *kind, out),
            Call::Show(place) => self.show(clock, *place, out),
            Call::Write { place, part } => self.write(clock, *place, *part, out),
            Call::Forget(place) => self.forget(*place, out),
        }
    }

    // A loan comes.
    fn on_loan(
        &mut self,
        head: &Head,
        kind: Kind,
        bytes: &[u8; PART_SIZE],
        out: &mut Effects,
    ) -> Result<(), Refusal>
        requires { self.old.is_up ≡ true }
        ensures { Heard (Loan head.now.who.id head.now.place.at head.now.number kind bytes.now) self.old self.new out.old out.new result }
    {
        if head.who != self.setting.who {
            return Err(Refusal::Malformed);
        }
        let (next, answer) = self.volatile.part(head.place).on_loan(head.number, kind);
        self.leave(head.place, next, out);
        if answer.is_ok() {
            self.volatile.set_copy(head.place, bytes);
        }
        answer
    }

    // A recall comes: it is answered by the ask number as it was.
    fn on_recall(&mut self, who: Who, place: Place, out: &mut Effects) -> Result<(), Refusal>
        ensures { Heard (Recall who.id place.at) self.old self.new out.old out.new result }
    {
        if who != self.setting.who {
            return Err(Refusal::Malformed);
        }
        let part = self.volatile.part(place);
        let number = part.ask;
        out.to_keeper(&ToKeeper::Back(Head { who, place, number }));
        let next = part.release();
        self.leave(place, next, out);
        Ok(())
    }

    // The writer is told what became of its write.
    fn tell(&self, head: &Head, notice: Notice, out: &mut Effects) -> Result<(), Refusal>
        ensures { Told head.now.who.id (note_of notice) self.now out.old out.new result }
    {
        if head.who != self.setting.who {
            return Err(Refusal::Malformed);
        }
        out.tell(notice);
        Ok(())
    }

    // A message comes, while it is up.
    fn hear(&mut self, message: &ToBorrower<'_>, out: &mut Effects) -> Result<(), Refusal>
        requires { self.old.is_up ≡ true }
        ensures { Heard (down_msg message.now) self.old self.new out.old out.new result }
    {
        match message {
            ToBorrower::Loan { head, kind, part } => self.on_loan(head, *kind, *part, out),
            ToBorrower::In(head) => {
                let place = head.place;
                let number = head.number;
                self.tell(head, Notice::In { place, number }, out)
            }
            ToBorrower::Void(head) => {
                let place = head.place;
                let number = head.number;
                self.tell(head, Notice::Void { place, number }, out)
            }
            ToBorrower::Recall { who, place } => self.on_recall(*who, *place, out),
        }
    }
}

impl Machine for Tablet {
    ghost use Rattle.journal.specs.declared.record.Owner.TheVariants.{Borrower};
    ghost use Rattle.borrowing.specs.Rules.{Terms, Durable, Volatile, fresh, redo, step, wakes};
    ghost use Rattle.borrowing.specs.Tablets.{terms_of, terms, durable, volatile};

    type Setting = Setting;

    ghost Terms = { Terms };

    ghost Durable = { Durable };

    ghost Volatile = { Volatile };

    ghost terms_of = { terms_of };

    ghost terms = { terms };

    ghost durable = { durable };

    ghost volatile = { volatile };

    ghost owner = { Borrower };

    ghost fresh = { fresh };

    ghost redo = { redo };

    ghost rules = { step };

    ghost wakes = { wakes };

    fn owner() -> Owner {
        Owner::Borrower
    }

    fn new(heap: Global, setting: Setting) -> Result<Tablet, AllocError> {
        let durable = Durable::new(heap)?;
        let volatile = Volatile::new(heap)?;
        Ok(Tablet {
            setting,
            durable,
            volatile,
            is_up: false,
        })
    }

    fn apply(&mut self, entry: &Entry<'_>) {
        self.durable.apply(entry);
    }

    fn is_up(&self) -> bool {
        self.is_up
    }

    fn wake(&mut self, _clock: u64, _out: &mut Effects) -> Result<(), Refusal> {
        if self.is_up {
            return Err(Refusal::Malformed);
        }
        self.volatile.come_up(&self.durable);
        self.is_up = true;
        Ok(())
    }

    fn step(&mut self, clock: u64, input: &Input<'_>, out: &mut Effects) -> Result<(), Refusal> {
        if !self.is_up {
            return Err(Refusal::Malformed);
        }
        match input {
            Input::Came(bytes) => {
                let message = ToBorrower::read(*bytes).ok_or(Refusal::Malformed)?;
                self.hear(&message, out)
            }
            Input::Called(call) => self.call(clock, call, out),
            Input::Reading => Ok(()),
        }
    }
}
