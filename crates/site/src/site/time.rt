ghost use Rattle.std.specs.Prelude.{◌≡◌, suc, [], List};
ghost use Rattle.clock.specs.Clocks.{present, moment, Stands};
ghost use Rattle.site.specs.Nodes.{borrower_number};
ghost use Rattle.site.specs.Led.{Led};

use crate::borrowers::Borrowers;
use crate::event::Borrower;
use crate::keeper_node::KeeperNode;
use crate::network::Network;
use crate::site::Site;
use clock::clocks::{Clocks, NoPass};
use clock::terms::Terms;
use std::alloc::Global;

impl Site {
    /// At first all are down, journals are empty, nothing was sent, and the clocks show this.
    pub fn new(heap: Global, terms: Terms, hands: &[u64; 5]) -> Site
        ensures terms { result.clocks.terms ≡ terms }
        ensures led { Led result (moment 0 hands.now) [] }
    {
        Site {
            heap,
            clocks: Clocks::new(terms, hands),
            keeper: KeeperNode::new(heap, terms.long),
            borrowers: Borrowers::new(heap, terms.short),
            network: Network::new(heap),
        }
    }

    // What a borrower's clock shows.
    pub(crate) fn reading(&self, who: Borrower) -> u64
        ensures { result ≡ (present self.now.clocks).hand (suc (borrower_number who)) }
    {
        self.clocks.borrower(u8::from(who)).unwrap_or(0)
    }
}
