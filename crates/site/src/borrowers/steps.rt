ghost use Rattle.std.specs.Prelude.{◌≡◌, ◌<◌, [], IfOk};
ghost use Rattle.world.specs.World.{borrower_down, borrower_up};
ghost use Rattle.site.specs.Nodes.{borrower_number};
ghost use Rattle.site.specs.FourBorrowers.{borrowers_of, Left, Called, CalledTorn, Heard, HeardTorn};

use crate::borrower_node::BorrowerNode;
use crate::borrowers::Borrowers;
use crate::event::Borrower;
use crate::fault::Fault;
use borrower::outcome::{Call, Outcome};
use part::place::Place;
use part::who::Who;
use std::alloc::Global;

// Where a borrower stands in the table.
fn index(who: Borrower) -> usize
    ensures here { result ≡ borrower_number who }
    ensures within { result < 4 }
{
    usize::from(u8::from(who))
}

impl Borrowers {
    /// All are down, with empty journals.
    // The four are written out: of a `map` the check would not know that each is below 32.
    pub fn new(heap: Global, short: u64) -> Borrowers
        ensures is { borrowers_of result ≡ (λ i. borrower_down []) }
        ensures short { result.short ≡ short }
    {
        Borrowers {
            nodes: [
                BorrowerNode::new(heap, Who { id: 0 }, short),
                BorrowerNode::new(heap, Who { id: 1 }, short),
                BorrowerNode::new(heap, Who { id: 2 }, short),
                BorrowerNode::new(heap, Who { id: 3 }, short),
            ],
            short,
        }
    }

    /// Whether a borrower is up.
    pub fn is_up(&self, who: Borrower) -> bool
        ensures { result ≡ (borrowers_of self.now (borrower_number who)).up }
    {
        self.nodes[index(who)].is_up()
    }

    /// Comes up from its journal.
    pub fn come_up(&mut self, heap: Global, who: Borrower) -> Result<(), Fault>
        ensures is { IfOk result (λ _. Left (borrowers_of self.old) (borrowers_of self.new) (borrower_number who) (borrower_up (borrowers_of self.old (borrower_number who)).file)) }
        ensures short { self.new.short ≡ self.old.short }
    {
        self.nodes[index(who)].come_up(heap)?;
        Ok(())
    }

    /// Stops: all but its journal is gone.
    pub fn stop(&mut self, who: Borrower)
        ensures short { self.new.short ≡ self.old.short }
        ensures is { Left (borrowers_of self.old) (borrowers_of self.new) (borrower_number who) (borrower_down (borrowers_of self.old (borrower_number who)).file) }
    {
        self.nodes[index(who)].stop();
    }

    /// A call of a borrower; none comes of it where it is down.
    pub fn call(
        &mut self,
        who: Borrower,
        clock: u64,
        place: Place,
        call: Call,
    ) -> Result<Option<Outcome>, Fault>
        ensures is { IfOk result (Called self.old.short (borrowers_of self.old) (borrowers_of self.new) (borrower_number who) clock place.at call) }
        ensures short { self.new.short ≡ self.old.short }
    {
        let outcome = self.nodes[index(who)].call(clock, place, call)?;
        Ok(outcome)
    }

    /// A call in whose midst it stops: of its record only so many first bytes are left. False where it is down.
    pub fn call_torn(
        &mut self,
        who: Borrower,
        clock: u64,
        place: Place,
        call: Call,
        left: u64,
    ) -> Result<bool, Fault>
        ensures is { IfOk result (CalledTorn self.old.short (borrowers_of self.old) (borrowers_of self.new) (borrower_number who) clock place.at call left) }
        ensures short { self.new.short ≡ self.old.short }
    {
        let was_up = self.nodes[index(who)].call_torn(clock, place, call, left)?;
        Ok(was_up)
    }

    /// A message comes to a borrower; nothing comes of it where it is down.
    pub fn hear(&mut self, who: Borrower, bytes: &[u8]) -> Result<Option<Outcome>, Fault>
        ensures is { IfOk result (Heard (borrowers_of self.old) (borrowers_of self.new) (borrower_number who) bytes.now) }
        ensures short { self.new.short ≡ self.old.short }
    {
        let outcome = self.nodes[index(who)].hear(bytes)?;
        Ok(outcome)
    }

    /// A message in whose midst it stops: of its record only so many first bytes are left. False where it is down.
    pub fn hear_torn(&mut self, who: Borrower, bytes: &[u8], left: u64) -> Result<bool, Fault>
        ensures is { IfOk result (HeardTorn (borrowers_of self.old) (borrowers_of self.new) (borrower_number who) bytes.now left) }
        ensures short { self.new.short ≡ self.old.short }
    {
        let was_up = self.nodes[index(who)].hear_torn(bytes, left)?;
        Ok(was_up)
    }

    /// The bytes of a borrower's copy of a part; zeros where it is down.
    pub fn copy(&self, who: Borrower, place: Place) -> &[u8; 1024]
        ensures { result.now ≡ (borrowers_of self.now (borrower_number who)).copies place.at }
    {
        self.nodes[index(who)].copy(place)
    }
}
