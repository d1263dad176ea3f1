use crate::durable::Durable;
use crate::numbers::Counts;
use crate::volatile::Volatile;
use journal::entry::Entry;
use journal::record::Owner;
use machine::effects::Effects;
use machine::input::Input;
use machine::machine::Machine;
use message::form::Ask;
use message::refusal::Refusal;
use message::to_borrower::ToBorrower;
use message::to_keeper::ToKeeper;
use part::files::PART_SIZE;
use part::head::Head;
use part::place::Place;
use part::who::{BORROWERS, Who};
use std::alloc::{AllocError, Global};

/// The keeper. While it has not come up, what it has in `volatile` counts for nothing.
#[derive(Drop)]
pub struct Keeper {
    durable: Durable,
    volatile: Volatile,
    // how long a lease runs
    long: u64,
    is_up: bool,
}

impl Keeper {
    ghost use Rattle.std.specs.Prelude.{◌≡◌, ◌+◌, ◌^◌, ◌<◌, count_by, length};
    ghost use Rattle.lease.specs.Leases.{running};
    ghost use Rattle.keeping.specs.Rules.{recalls};
    ghost use Rattle.keeping.specs.Sends.{Sends};
    ghost use Rattle.keeping.specs.Volatiles.{volatile_of};
    ghost use Rattle.keeping.specs.Keepers.{durable, GoesBy};
    ghost use Rattle.keeping.specs.Keepers.{granted_for, asked_for, written_by, heard_of};

    /// The bytes of a part.
    pub fn part(&self, place: Place) -> &[u8; PART_SIZE]
        ensures bytes { result.now ≡ (durable self.now).parts place.at }
        ensures size { length result.now ≡ 1024 }
    {
        self.durable.part(place)
    }

    // A recall of a part to each borrower that is marked.
    fn send_recalls(place: Place, by: &[bool; BORROWERS], out: &mut Effects)
        ensures { Sends (recalls place.at 0 by.now) out.old out.new }
    {
        for id in 0u8..32 {
            if by[usize::from(id)] {
                let who = Who { id };
                out.to_borrower(&ToBorrower::Recall { who, place });
            }
        }
    }

    // The part is lent. The loan is sent first, while the parts are as the ask found them.
    fn granted(&mut self, clock: u64, ask: &Ask, out: &mut Effects) -> Result<(), Refusal>
        requires clock { clock + self.old.long < 2 ^ 64 }
        requires table { count_by (running clock) (volatile_of self.old.volatile).leases < 4096 }
        ensures { GoesBy (granted_for clock ask.now) self.old self.new out.old out.new result }
    {
        self.durable.send_loan(ask, out);
        self.durable.void(ask, out);
        self.volatile.lend(self.long, clock, ask);
        Ok(())
    }

    // An ask comes.
    fn asked(&mut self, clock: u64, ask: &Ask, out: &mut Effects) -> Result<(), Refusal>
        ensures { GoesBy (asked_for clock ask.now) self.old self.new out.old out.new result }
    {
        if self.volatile.is_quiet(clock) {
            return Err(Refusal::Quiet);
        }
        if let Some(by) = self.volatile.table.barring(clock, ask) {
            Keeper::send_recalls(ask.head.place, &by, out);
            return Err(Refusal::Barred);
        }
        if u64::MAX - self.long < clock || self.volatile.table.is_full(clock) {
            return Err(Refusal::Exhausted);
        }
        self.granted(clock, ask, out)
    }

    // A write comes.
    fn written(
        &mut self,
        clock: u64,
        head: Head,
        part: &[u8; PART_SIZE],
        out: &mut Effects,
    ) -> Result<(), Refusal>
        ensures { GoesBy (written_by clock head part.now) self.old self.new out.old out.new result }
    {
        if self.volatile.is_quiet(clock) {
            return Err(Refusal::Quiet);
        }
        let Counts { done, voided } = self.durable.counts(&head);
        if head.number == done && head.number > 0 {
            out.to_borrower(&ToBorrower::In(head));
            return Err(Refusal::NotApplied);
        }
        if head.number <= done {
            return Err(Refusal::NotApplied);
        }
        if head.number <= voided {
            out.to_borrower(&ToBorrower::Void(head));
            return Err(Refusal::NotApplied);
        }
        if !self.volatile.table.allows(clock, &head) {
            return Err(Refusal::NotApplied);
        }
        self.durable.enter(&Entry::Applied { head, part }, out);
        out.to_borrower(&ToBorrower::In(head));
        Ok(())
    }

    // A message comes.
    fn heard(
        &mut self,
        clock: u64,
        message: &ToKeeper<'_>,
        out: &mut Effects,
    ) -> Result<(), Refusal>
        ensures { GoesBy (heard_of clock message.now) self.old self.new out.old out.new result }
    {
        match message {
            ToKeeper::Ask {
                head,
                kind,
                written,
            } => {
                let ask = Ask {
                    head: *head,
                    kind: *kind,
                    written: *written,
                };
                self.asked(clock, &ask, out)
            }
            ToKeeper::Write { head, part } => self.written(clock, *head, *part, out),
            ToKeeper::Back(head) => {
                self.volatile.table.end(head);
                Ok(())
            }
        }
    }
}

impl Machine for Keeper {
    ghost use Rattle.std.specs.Prelude.{ℕ};
    ghost use Rattle.journal.specs.declared.record.Owner.TheVariants as owner;
    ghost use Rattle.keeping.specs.Rules.{Durable as DurableOf, Volatile as VolatileOf};
    ghost use Rattle.keeping.specs.Rules.{fresh, redo, step, wakes};
    ghost use Rattle.keeping.specs.Keepers.{durable, volatile, long};

    type Setting = u64;

    ghost Terms = { ℕ };

    ghost Durable = { DurableOf };

    ghost Volatile = { VolatileOf };

    ghost terms_of = { λ l. l };

    ghost terms = { long };

    ghost durable = { durable };

    ghost volatile = { volatile };

    ghost owner = { owner.Keeper };

    ghost fresh = { fresh };

    ghost redo = { redo };

    ghost rules = { step };

    ghost wakes = { wakes };

    fn owner() -> Owner {
        Owner::Keeper
    }

    fn new(heap: Global, long: u64) -> Result<Keeper, AllocError> {
        Ok(Keeper {
            durable: Durable::new(heap)?,
            volatile: Volatile::new(heap)?,
            long,
            is_up: false,
        })
    }

    fn apply(&mut self, entry: &Entry<'_>) {
        self.durable.apply(entry);
    }

    fn is_up(&self) -> bool {
        self.is_up
    }

    fn wake(&mut self, clock: u64, _out: &mut Effects) -> Result<(), Refusal> {
        if self.is_up {
            return Err(Refusal::Malformed);
        }
        let quiet = clock.checked_add(self.long).ok_or(Refusal::Exhausted)?;
        self.volatile.begin(quiet);
        self.is_up = true;
        Ok(())
    }

    fn step(&mut self, clock: u64, input: &Input<'_>, out: &mut Effects) -> Result<(), Refusal> {
        if !self.is_up {
            return Err(Refusal::Malformed);
        }
        match input {
            Input::Came(bytes) => {
                let Some(message) = ToKeeper::read(*bytes) else {
                    return Err(Refusal::Malformed);
                };
                self.heard(clock, &message, out)
            }
            Input::Called(_) => Err(Refusal::Malformed),
            Input::Reading => Ok(()),
        }
    }
}
