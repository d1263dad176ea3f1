ghost use Rattle.std.specs.Prelude.{◌≡◌, ℕ, ◌+◌, ◌^◌, List, is_ok, IfOk, IsOkUnless, if◌then◌else◌, OnOk, nat_lt};
ghost use Rattle.message.specs.Reading.{read};
ghost use Rattle.journal.specs.Logs.{Appended, Logged};
ghost use Rattle.lender.specs.Book.{keeper_book, keeper_parts};
ghost use Rattle.lender.specs.Rules.{risen};
ghost use Rattle.lender.specs.OnDisk.{OnDisk};
ghost use Rattle.lender.specs.Replies.{effect, place_in, heard_effect, heard_book, heard_parts, recorded_by};

use crate::answer::Reply;
use crate::keeper::Keeper;
use journal::record::Record;
use journal::store::{Store, StoreError, append_record};
use message::refusal::Refusal;
use part::place::Place;

// The part that a record is about.
fn place_in(record: Record) -> Place
    ensures { result.at ≡ place_in «record» }
{
    match record {
        Record::Applied(head) | Record::VoidUpTo(head) => head.place,
        Record::Numbers { place, .. } => place,
    }
}

impl Keeper {
    /// Comes up: no leases, and a grace period; refused, and nothing changes, where that would pass 64 bits.
    pub fn come_up(&mut self, clock: u64) -> Result<(), Refusal>
        ensures answer { is_ok result ≡ nat_lt (clock + (keeper_book self.old).long) (2 ^ 64) }
        ensures why { IsOkUnless result Refusal.Exhausted }
        ensures book { keeper_book self.new ≡ (if is_ok result then risen clock (keeper_book self.old) else keeper_book self.old) }
        ensures parts { keeper_parts self.new ≡ keeper_parts self.old }
        ensures disk { (file : List ℕ) → OnDisk self.old file → OnDisk self.new file }
    {
        self.lender.come_up(clock)
    }

    /// The bytes of a part.
    pub fn part(&self, place: Place) -> &[u8; 1024]
        ensures { result.now ≡ keeper_parts self.now place.at }
    {
        self.files.part(place)
    }

    /// A message comes, and nothing is on file of it yet: the record of the reply has to be, synced, before anything leaves.
    pub fn receive(&mut self, clock: u64, bytes: &[u8]) -> Reply
        ensures effect { effect (keeper_parts self.new) result ≡ heard_effect clock (read bytes.now) (keeper_book self.old) (keeper_parts self.old) }
        ensures book { keeper_book self.new ≡ heard_book clock (read bytes.now) (keeper_book self.old) }
        ensures parts { keeper_parts self.new ≡ heard_parts clock (read bytes.now) (keeper_book self.old) (keeper_parts self.old) }
    {
        self.lender.receive(&mut self.files, clock, bytes)
    }

    /// The bytes that go with a record: those that the part has which it is about.
    pub fn part_of(&self, record: Record) -> &[u8; 1024]
        ensures { result.now ≡ keeper_parts self.now (place_in «record») }
    {
        self.files.part(place_in(record))
    }

    // Appends the record of a reply, if there is one. The part's bytes are looked for only where there is one.
    fn append<S: Store>(&self, store: &mut S, record: Option<Record>) -> Result<(), StoreError>
        ensures { OnOk result (Appended (recorded_by (keeper_parts self.now) «record») (S.disk store.old) (S.disk store.new)) }
    {
        match record {
            None => Ok(()),
            Some(record) => append_record(store, &record, self.part_of(record)),
        }
    }

    // Store, reading and bytes stay three parameters, here and below: each is from somewhere else.
    /// A message comes, one of several that are to share a sync: its record is in the journal, and nothing of the reply may leave
    /// before the journal is synced.
    pub fn take<S: Store>(
        &mut self,
        store: &mut S,
        clock: u64,
        bytes: &[u8],
    ) -> Result<Reply, StoreError>
        ensures effect { IfOk result (λ reply. effect (keeper_parts self.new) reply ≡ heard_effect clock (read bytes.now) (keeper_book self.old) (keeper_parts self.old)) }
        ensures book { keeper_book self.new ≡ heard_book clock (read bytes.now) (keeper_book self.old) }
        ensures parts { keeper_parts self.new ≡ heard_parts clock (read bytes.now) (keeper_book self.old) (keeper_parts self.old) }
        ensures appended { OnOk result (Appended (heard_effect clock (read bytes.now) (keeper_book self.old) (keeper_parts self.old)).records (S.disk store.old) (S.disk store.new)) }
        ensures disk { OnOk result (OnDisk self.old (S.disk store.old).appended → OnDisk self.new (S.disk store.new).appended) }
    {
        let reply = self.receive(clock, bytes);
        self.append(store, reply.record)?;
        Ok(reply)
    }

    /// A message comes. Once it is answered, the record of it is in the journal, and synced.
    pub fn serve<S: Store>(
        &mut self,
        store: &mut S,
        clock: u64,
        bytes: &[u8],
    ) -> Result<Reply, StoreError>
        ensures effect { IfOk result (λ reply. effect (keeper_parts self.new) reply ≡ heard_effect clock (read bytes.now) (keeper_book self.old) (keeper_parts self.old)) }
        ensures book { keeper_book self.new ≡ heard_book clock (read bytes.now) (keeper_book self.old) }
        ensures parts { keeper_parts self.new ≡ heard_parts clock (read bytes.now) (keeper_book self.old) (keeper_parts self.old) }
        ensures logged { OnOk result (Logged (heard_effect clock (read bytes.now) (keeper_book self.old) (keeper_parts self.old)).records (S.disk store.old) (S.disk store.new)) }
        ensures disk { OnOk result (OnDisk self.old (S.disk store.old).appended → OnDisk self.new (S.disk store.new).appended) }
    {
        let reply = self.take(store, clock, bytes)?;
        store.sync()?;
        Ok(reply)
    }
}
