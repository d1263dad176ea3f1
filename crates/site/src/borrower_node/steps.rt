ghost use Rattle.std.specs.Prelude.{◌≡◌, ℕ, List, [], IfOk};
ghost use Rattle.world.specs.World.{borrower_down, borrower_up};
ghost use Rattle.site.specs.OneBorrower.{borrower_of, Keeps, Called, CalledTorn, Heard, HeardTorn};

use crate::borrower_node::BorrowerNode;
use crate::fault::Fault;
use crate::torn::append_torn;
use borrower::outcome::{Call, Outcome};
use borrower::tablet::Tablet;
use journal::source::memory::MemorySource;
use journal::store::memory::MemoryStore;
use part::place::Place;
use part::who::Who;
use std::alloc::Global;

impl BorrowerNode {
    /// Down, with an empty journal.
    pub fn new(heap: Global, who: Who, short: u64) -> BorrowerNode
        ensures is { borrower_of result ≡ borrower_down [] }
        ensures who { result.who ≡ who }
        ensures short { result.short ≡ short }
    {
        BorrowerNode {
            who,
            short,
            tablet: None,
            journal: MemoryStore::new(heap),
        }
    }

    /// Whether it is up.
    pub fn is_up(&self) -> bool
        ensures { result ≡ (borrower_of self.now).up }
    {
        self.tablet.is_some()
    }

    /// Comes up from its journal.
    pub fn come_up(&mut self, heap: Global) -> Result<(), Fault>
        ensures is { IfOk result (λ _. borrower_of self.new ≡ borrower_up (borrower_of self.old).file) }
        ensures keeps { Keeps self.old self.new }
    {
        let mut from = MemorySource::of(self.journal.content());
        let (tablet, size) = Tablet::open(heap, self.who, self.short, &mut from)?;
        self.journal.cut(size);
        self.tablet = Some(tablet);
        Ok(())
    }

    /// Stops: all but its journal is gone.
    pub fn stop(&mut self)
        ensures is { borrower_of self.new ≡ borrower_down (borrower_of self.old).file }
        ensures keeps { Keeps self.old self.new }
    {
        self.tablet = None;
    }

    /// A call; none comes of it where it is down.
    pub fn call(&mut self, clock: u64, place: Place, call: Call) -> Result<Option<Outcome>, Fault>
        ensures is { IfOk result (Called self.old self.new clock place.at call) }
        ensures keeps { Keeps self.old self.new }
    {
        let Some(tablet) = self.tablet.as_mut() else {
            return Ok(None);
        };
        let outcome = tablet.call(&mut self.journal, clock, place, call)?;
        Ok(Some(outcome))
    }

    /// A call in whose midst it stops: of its record only so many first bytes are left. False where it is down.
    pub fn call_torn(
        &mut self,
        clock: u64,
        place: Place,
        call: Call,
        left: u64,
    ) -> Result<bool, Fault>
        ensures is { IfOk result (CalledTorn self.old self.new clock place.at call left) }
        ensures keeps { Keeps self.old self.new }
    {
        let Some(tablet) = self.tablet.as_mut() else {
            return Ok(false);
        };
        let outcome = tablet.perform(clock, place, call);
        append_torn(&mut self.journal, outcome.record, &[0; 1024], left)?;
        self.stop();
        Ok(true)
    }

    /// A message comes; nothing comes of it where it is down.
    pub fn hear(&mut self, bytes: &[u8]) -> Result<Option<Outcome>, Fault>
        ensures is { IfOk result (Heard self.old self.new bytes.now) }
        ensures keeps { Keeps self.old self.new }
    {
        let Some(tablet) = self.tablet.as_mut() else {
            return Ok(None);
        };
        let outcome = tablet.hear(&mut self.journal, bytes)?;
        Ok(Some(outcome))
    }

    /// A message in whose midst it stops: of its record only so many first bytes are left. False where it is down.
    pub fn hear_torn(&mut self, bytes: &[u8], left: u64) -> Result<bool, Fault>
        ensures is { IfOk result (HeardTorn self.old self.new bytes.now left) }
        ensures keeps { Keeps self.old self.new }
    {
        let Some(tablet) = self.tablet.as_mut() else {
            return Ok(false);
        };
        let outcome = tablet.receive(bytes);
        append_torn(&mut self.journal, outcome.record, &[0; 1024], left)?;
        self.stop();
        Ok(true)
    }

    /// The bytes of the copy of a part; zeros where it is down.
    pub fn copy(&self, place: Place) -> &[u8; 1024]
        ensures { result.now ≡ (borrower_of self.now).copies place.at }
    {
        match &self.tablet {
            Some(tablet) => tablet.copy(place),
            None => &[0; 1024],
        }
    }
}
