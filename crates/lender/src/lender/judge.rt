ghost use Rattle.std.specs.Prelude.{◌≡◌};
ghost use Rattle.lender.specs.Book.{book};
ghost use Rattle.lender.specs.Rules.{answer_to, write_answer};

use crate::answer::{AskAnswer, WriteAnswer};
use crate::lender::Lender;
use crate::numbers::Counts;
use message::form::Ask;
use part::head::Head;

impl Lender {
    // The last write of a borrower that was applied to a part, and the last that is void.
    fn counts(&self, head: &Head) -> Counts
        ensures done { result.done ≡ (book self.now).done head.now.place.at head.now.who.id }
        ensures voided { result.voided ≡ (book self.now).void head.now.place.at head.now.who.id }
    {
        self.numbers[usize::from(head.place.at)].counts_of(head.who)
    }

    /// What is to come of a write.
    // The reading stays beside the message, here and in the steps: the clock is the keeper's, and the message came.
    pub fn judge_write(&self, clock: u64, head: Head) -> WriteAnswer
        ensures { result ≡ write_answer clock head.who.id head.place.at head.number (book self.now) }
    {
        if clock < self.quiet {
            return WriteAnswer::Quiet;
        }
        let Counts { done, voided } = self.counts(&head);
        if head.number == done && head.number > 0 {
            return WriteAnswer::Again;
        }
        if head.number <= done {
            return WriteAnswer::Passed;
        }
        if head.number <= voided {
            return WriteAnswer::Void;
        }
        if self.table.allows(clock, &head) {
            WriteAnswer::Applied
        } else {
            WriteAnswer::Passed
        }
    }

    /// What is to come of an ask.
    pub fn judge_ask(&self, clock: u64, ask: &Ask) -> AskAnswer
        ensures { result ≡ answer_to clock ask.now (book self.now) }
    {
        if clock < self.quiet {
            return AskAnswer::Quiet;
        }
        if let Some(by) = self.table.barring(clock, ask) {
            return AskAnswer::Barred { by };
        }
        if u64::MAX - self.long < clock || self.table.is_full(clock) {
            return AskAnswer::Exhausted;
        }
        let Counts { done, voided } = self.counts(&ask.head);
        let voids = done < ask.written && voided < ask.written;
        AskAnswer::Granted { voids }
    }
}
