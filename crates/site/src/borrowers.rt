ghost use Rattle.std.specs.Prelude.{◌≡◌, [], ◌∷◌, map};
ghost use Rattle.site.specs.declared.borrower_node.BorrowerNode.{BorrowerNode};
ghost use Rattle.site.specs.Seats.{seats, times};

use crate::borrower_node::BorrowerNode;

pub mod steps;

/// The borrowers 0 to 3. How long a loan is, is the same for all.
#[derive(Drop)]
pub struct Borrowers {
    nodes: [BorrowerNode; 4],
    short: u64,
    ghost whose: { seats nodes ≡ 0 ∷ 1 ∷ 2 ∷ 3 ∷ [] },
    ghost same: { times nodes ≡ short ∷ short ∷ short ∷ short ∷ [] },
}
