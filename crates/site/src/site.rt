ghost use Rattle.std.specs.Prelude.{◌≡◌};

use crate::borrowers::Borrowers;
use crate::keeper_node::KeeperNode;
use crate::network::Network;
use clock::clocks::Clocks;
use std::alloc::Global;

pub mod calls;
pub mod deliveries;
pub mod lives;
pub mod play;
pub mod promise;
pub mod sent;
pub mod show;
pub mod time;

/// One keeper, the borrowers 0 to 3, the network between them and their clocks.
#[derive(Drop)]
pub struct Site {
    heap: Global,
    clocks: Clocks,
    keeper: KeeperNode,
    borrowers: Borrowers,
    network: Network,
    ghost short: { borrowers.short ≡ clocks.terms.short },
    ghost long: { keeper.long ≡ clocks.terms.long },
}
