ghost use Rattle.std.specs.Prelude.{◌≡◌};
ghost use Rattle.std.specs.Option.{ForSome};

use borrower::tablet::Tablet;
use journal::store::memory::MemoryStore;
use part::who::Who;

pub mod steps;

/// A borrower with its journal in memory. It is up while it has a tablet.
#[derive(Drop)]
pub struct BorrowerNode {
    who: Who,
    short: u64,
    tablet: Option<Tablet>,
    journal: MemoryStore,
    ghost whose: { ForSome tablet (λ t. t.who ≡ who) },
    ghost times: { ForSome tablet (λ t. t.short ≡ short) },
}
