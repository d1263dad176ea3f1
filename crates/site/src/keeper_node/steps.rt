ghost use Rattle.std.specs.Prelude.{◌≡◌, ◌+◌, ◌^◌, [], IfOk, Ok, Err, cond, nat_le};
ghost use Rattle.message.specs.declared.refusal.Refusal.TheVariants.{Exhausted};
ghost use Rattle.journal.specs.Logs.{logged};
ghost use Rattle.lender.specs.Book.{keeper_parts};
ghost use Rattle.lender.specs.Replies.{recorded_by};
ghost use Rattle.world.specs.World.{keeper_down, keeper_up, recovered};
ghost use Rattle.site.specs.OneKeeper.{lender_of, Served, ServedTorn};

use crate::fault::Fault;
use crate::keeper_node::KeeperNode;
use crate::torn::append_torn;
use crate::written::Written;
use journal::record::{Owner, Record};
use journal::replay::replay;
use journal::source::memory::MemorySource;
use journal::store::memory::MemoryStore;
use lender::answer::Reply;
use lender::keeper::Keeper;
use message::refusal::Refusal;
use part::place::Place;
use std::alloc::Global;

// The bytes that go with a record, if there is one.
fn part_of(memory: &Keeper, record: Option<Record>) -> &[u8; 1024]
    ensures { logged result.now «record» ≡ recorded_by (keeper_parts memory.now) «record» }
{
    match record {
        Some(record) => memory.part_of(record),
        None => &[0; 1024],
    }
}

// The bytes of a part that a journal says.
fn written(journal: &[u8], place: Place) -> Result<[u8; 1024], Fault>
    ensures { IfOk result (λ v. v ≡ (recovered journal.now).parts place.at) }
{
    let bytes = [0; 1024];
    let mut part = Written { place, bytes };
    replay(Owner::Keeper, journal, &mut part)?;
    Ok(part.bytes)
}

impl KeeperNode {
    /// Down, with an empty journal.
    pub fn new(heap: Global, long: u64) -> KeeperNode
        ensures { lender_of result ≡ keeper_down long [] }
    {
        KeeperNode {
            long,
            memory: None,
            journal: MemoryStore::new(heap),
        }
    }

    /// Whether it is up.
    pub fn is_up(&self) -> bool
        ensures { result ≡ (lender_of self.now).up }
    {
        self.memory.is_some()
    }

    /// Comes up from its journal; refused, and nothing changes, where the grace period would pass 64 bits.
    pub fn come_up(&mut self, heap: Global, clock: u64) -> Result<Result<(), Refusal>, Fault>
        ensures answer { IfOk result (λ r. r ≡ cond (nat_le (2 ^ 64) (clock + self.old.long)) (Err Exhausted) (Ok tt)) }
        ensures is { IfOk result (λ _. lender_of self.new ≡ cond (nat_le (2 ^ 64) (clock + self.old.long)) (lender_of self.old) (keeper_up clock self.old.long (lender_of self.old).file)) }
        ensures long { self.new.long ≡ self.old.long }
    {
        if clock.checked_add(self.long).is_none() {
            return Ok(Err(Refusal::Exhausted));
        }
        let mut from = MemorySource::of(self.journal.content());
        let (mut memory, size) = Keeper::open(heap, self.long, &mut from)?;
        self.journal.cut(size);
        let answer = memory.come_up(clock);
        self.memory = Some(memory);
        Ok(answer)
    }

    /// Stops: all but its journal is gone.
    pub fn stop(&mut self)
        ensures { lender_of self.new ≡ keeper_down self.old.long (lender_of self.old).file }
    {
        self.memory = None;
    }

    /// A message comes; nothing comes of it where it is down.
    #[tactic(auto, using(crate::proofs::OneKeeper::heard_long))]
    pub fn serve(&mut self, clock: u64, bytes: &[u8]) -> Result<Option<Reply>, Fault>
        ensures is { IfOk result (Served self.old self.new clock bytes.now) }
        ensures long { self.new.long ≡ self.old.long }
    {
        let Some(memory) = self.memory.as_mut() else {
            return Ok(None);
        };
        let reply = memory.serve(&mut self.journal, clock, bytes)?;
        Ok(Some(reply))
    }

    /// A message in whose midst it stops: of its record only so many first bytes are left. False where it is down.
    #[tactic(auto, using(crate::proofs::OneKeeper::heard_long))]
    pub fn serve_torn(&mut self, clock: u64, bytes: &[u8], left: u64) -> Result<bool, Fault>
        ensures is { IfOk result (ServedTorn self.old self.new clock bytes.now left) }
        ensures long { self.new.long ≡ self.old.long }
    {
        let Some(memory) = self.memory.as_mut() else {
            return Ok(false);
        };
        let reply = memory.receive(clock, bytes);
        append_torn(
            &mut self.journal,
            reply.record,
            part_of(memory, reply.record),
            left,
        )?;
        self.stop();
        Ok(true)
    }

    /// The bytes of a part: while it is down, what its journal says.
    pub fn part(&self, place: Place) -> Result<[u8; 1024], Fault>
        ensures { IfOk result (λ v. v ≡ (lender_of self.now).parts place.at) }
    {
        match &self.memory {
            Some(memory) => Ok(*memory.part(place)),
            None => written(self.journal.content(), place),
        }
    }
}
