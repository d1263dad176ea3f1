ghost use Rattle.std.specs.Prelude.{◌≡◌, ◌+◌, ◌^◌, ◌<◌, [], count_by};
ghost use Rattle.lease.specs.Leases.{running};
ghost use Rattle.part.specs.Parts.{parts, at_1};
ghost use Rattle.lender.specs.Book.{book};
ghost use Rattle.lender.specs.Rules.{answer_to, after_answer, write_answer, after_write, parts_after, granted_to, applied, given_back, with_void_at, with_lease_of};

use crate::answer::{AskAnswer, WriteAnswer};
use crate::lender::Lender;
use crate::numbers::Counts;
use lease::lease::Lease;
use message::form::Ask;
use part::files::Files;
use part::head::Head;

impl Lender {
    // The write of this number is applied.
    // `as usize` stays, here and below: with `usize::from` the proof did not close.
    pub(crate) fn set_done(&mut self, head: Head)
        ensures { book self.new ≡ applied head.who.id head.place.at head.number (book self.old) }
    {
        self.numbers[head.place.at as usize].counts[head.who.id as usize].done = head.number;
    }

    // The writes up to this number are void.
    pub(crate) fn set_void(&mut self, head: Head)
        ensures { book self.new ≡ with_void_at head.who.id head.place.at head.number (book self.old) }
    {
        self.numbers[head.place.at as usize].counts[head.who.id as usize].voided = head.number;
    }

    // Adds a lease, where there is room in the table and in the clock.
    fn add_lease(&mut self, clock: u64, ask: &Ask)
        requires clock { clock + self.old.long < 2 ^ 64 }
        requires table { count_by (running clock) (book self.old).leases < 4096 }
        ensures { book self.new ≡ with_lease_of clock ask.now (book self.old) }
    {
        let lease = Lease {
            who: ask.head.who.id,
            place: ask.head.place.at,
            kind: ask.kind,
            number: ask.head.number,
            until: clock + self.long,
        };
        self.table.grant(clock, lease);
    }

    // Lends, where there is room in the table and in the clock.
    fn grant(&mut self, clock: u64, ask: &Ask, voids: bool)
        requires clock { clock + self.old.long < 2 ^ 64 }
        requires table { count_by (running clock) (book self.old).leases < 4096 }
        ensures { book self.new ≡ granted_to clock ask.now voids (book self.old) }
    {
        self.add_lease(clock, ask);
        if voids {
            self.set_void(Head {
                number: ask.written,
                ..ask.head
            });
        }
    }

    /// An ask: judged, and the part lent where nothing stands in the way.
    pub fn ask(&mut self, clock: u64, ask: &Ask) -> AskAnswer
        ensures answer { result ≡ answer_to clock ask.now (book self.old) }
        ensures after { book self.new ≡ after_answer clock ask.now result (book self.old) }
    {
        let answer = self.judge_ask(clock, ask);
        if let AskAnswer::Granted { voids } = answer {
            self.grant(clock, ask, voids);
        }
        answer
    }

    /// A write: judged, and applied where a lease lets it.
    pub fn write(
        &mut self,
        files: &mut Files,
        clock: u64,
        head: Head,
        bytes: &[u8; 1024],
    ) -> WriteAnswer
        ensures answer { result ≡ write_answer clock head.who.id head.place.at head.number (book self.old) }
        ensures after { book self.new ≡ after_write head.who.id head.place.at head.number result (book self.old) }
        ensures parts { parts files.new ≡ parts_after head.place.at bytes.now result (parts files.old) }
    {
        let answer = self.judge_write(clock, head);
        if let WriteAnswer::Applied = answer {
            files.write(head.place, bytes);
            self.set_done(head);
        }
        answer
    }

    /// A borrower gives back what it was lent of a part.
    pub fn back(&mut self, head: Head)
        ensures { book self.new ≡ given_back head.who.id head.place.at head.number (book self.old) }
    {
        self.table.end(&head);
    }
}
