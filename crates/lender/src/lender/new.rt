ghost use Rattle.std.specs.Prelude.{◌≡◌, ◌+◌, ◌^◌, is_ok, IfOk, IsOkUnless, if◌then◌else◌, nat_lt};
ghost use Rattle.lender.specs.Book.{book};
ghost use Rattle.lender.specs.Rules.{fresh, risen};

use crate::lender::Lender;
use crate::numbers::Numbers;
use lease::table::Table;
use message::refusal::Refusal;
use std::alloc::{AllocError, Global};

impl Lender {
    /// Nothing was written or lent yet. It is not up before `come_up`.
    // Heap and time stay two parameters, here and of the keeper: it is what is made that holds both.
    pub fn new(heap: Global, long: u64) -> Result<Lender, AllocError>
        ensures { IfOk result (λ k. book k ≡ fresh long) }
    {
        Ok(Lender {
            numbers: Vec::from_elem(heap, Numbers::none(), 16384)?,
            table: Table::new(heap)?,
            quiet: 0,
            long,
        })
    }

    /// Comes up: no leases, and a grace period; refused, and nothing changes, where that would pass 64 bits.
    pub fn come_up(&mut self, clock: u64) -> Result<(), Refusal>
        ensures answer { is_ok result ≡ nat_lt (clock + self.old.long) (2 ^ 64) }
        ensures why { IsOkUnless result Refusal.Exhausted }
        ensures after { book self.new ≡ (if is_ok result then risen clock (book self.old) else book self.old) }
    {
        let quiet = clock.checked_add(self.long).ok_or(Refusal::Exhausted)?;
        self.table.clear();
        self.quiet = quiet;
        Ok(())
    }
}
