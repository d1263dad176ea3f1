ghost use Rattle.std.specs.Prelude.{◌≡◌};
ghost use Rattle.std.specs.Option.{ForSome};
ghost use Rattle.lender.specs.Book.{keeper_book};

use journal::store::memory::MemoryStore;
use lender::keeper::Keeper;

pub mod steps;

/// The keeper with its journal in memory. It is up while it has its memory.
#[derive(Drop)]
pub struct KeeperNode {
    long: u64,
    memory: Option<Keeper>,
    journal: MemoryStore,
    ghost times: { ForSome memory (λ k. (keeper_book k).long ≡ long) },
}
