ghost use Rattle.std.specs.Prelude.{◌≡◌, vec_len};

use crate::numbers::{Counts, Numbers};
use journal::entry::Entry;
use machine::effects::Effects;
use message::form::Ask;
use message::to_borrower::ToBorrower;
use part::files::{Files, PART_SIZE, PARTS};
use part::head::Head;
use part::place::Place;
use std::alloc::{AllocError, Global};

/// What outlasts a stop: what the records of the journal make.
#[derive(Drop)]
pub struct Durable {
    numbers: Vec<Numbers>,
    files: Files,
    ghost all: { vec_len numbers ≡ 16384 },
}

impl Durable {
    ghost use Rattle.std.specs.Prelude.{[], ◌∷◌, length, IfOk};
    ghost use Rattle.journal.specs.declared.record.Owner.TheVariants as owner;
    ghost use Rattle.journal.specs.Entries.{rec_of};
    ghost use Rattle.journal.specs.Records.{AllSound};
    ghost use Rattle.keeping.specs.Rules.{fresh, redo};
    ghost use Rattle.keeping.specs.Sends.{Sends};
    ghost use Rattle.keeping.specs.Durables.{durable_of, counts_for, with_done, with_void};
    ghost use Rattle.keeping.specs.Durables.{voids_for, loan_for, Entered};

    /// Nothing is written yet.
    pub fn new(heap: Global) -> Result<Durable, AllocError>
        ensures { IfOk result (λ d. durable_of d ≡ fresh) }
    {
        Ok(Durable {
            numbers: Vec::from_elem(heap, Numbers::none(), PARTS)?,
            files: Files::new(heap)?,
        })
    }

    /// The numbers of a part and a borrower.
    pub fn counts(&self, head: &Head) -> Counts
        ensures { result ≡ counts_for head.now (durable_of self.now) }
    {
        self.numbers[usize::from(head.place.at)].counts_of(head.who)
    }

    /// The bytes of a part.
    pub fn part(&self, place: Place) -> &[u8; PART_SIZE]
        ensures bytes { result.now ≡ (durable_of self.now).parts place.at }
        ensures size { length result.now ≡ 1024 }
    {
        let part = self.files.part(place);
        // Its size is known of it as a slice.
        let _bytes: &[u8] = part;
        part
    }

    // The write of this number is applied.
    fn set_done(&mut self, head: &Head)
        ensures { durable_of self.new ≡ with_done head.now (durable_of self.old) }
    {
        self.numbers[head.place.at as usize].counts[head.who.id as usize].done = head.number;
    }

    // The writes up to this number are void.
    fn set_void(&mut self, head: &Head)
        ensures { durable_of self.new ≡ with_void head.now (durable_of self.old) }
    {
        self.numbers[head.place.at as usize].counts[head.who.id as usize].voided = head.number;
    }

    /// A record is applied, as it comes or as it is read back.
    pub fn apply(&mut self, entry: &Entry<'_>)
        ensures { durable_of self.new ≡ redo (durable_of self.old) (rec_of entry.now) }
    {
        match entry {
            Entry::Applied { head, part } => {
                self.files.write(head.place, *part);
                self.set_done(head);
            }
            Entry::VoidUpTo(head) => self.set_void(head),
            Entry::Numbers { .. } => {}
        }
    }

    /// A record is applied, and given out.
    pub fn enter(&mut self, entry: &Entry<'_>, out: &mut Effects)
        ensures { Entered (rec_of entry.now ∷ []) self.old self.new out.old out.new }
    {
        self.apply(entry);
        out.record(entry);
    }

    /// The writes before an ask are void from now on, where there are some that are not applied.
    pub fn void(&mut self, ask: &Ask, out: &mut Effects)
        ensures entered { Entered (voids_for ask.now (durable_of self.old)) self.old self.new out.old out.new }
        ensures sound { AllSound owner.Keeper (voids_for ask.now (durable_of self.old)) }
    {
        let Counts { done, voided } = self.counts(&ask.head);
        if done < ask.written && voided < ask.written {
            let head = Head {
                number: ask.written,
                ..ask.head
            };
            self.enter(&Entry::VoidUpTo(head), out);
        }
    }

    /// The loan that answers an ask is sent.
    pub fn send_loan(&self, ask: &Ask, out: &mut Effects)
        ensures { Sends (loan_for ask.now (durable_of self.now) ∷ []) out.old out.new }
    {
        let Ask { head, kind, .. } = *ask;
        let part = self.part(head.place);
        out.to_borrower(&ToBorrower::Loan { head, kind, part });
    }
}
