ghost use Rattle.std.specs.Prelude.{◌≡◌, take, false, IsErrOf};
ghost use Rattle.journal.specs.declared.store.StoreError.TheVariants.{NoMemory};
ghost use Rattle.journal.specs.Causes.{HasCause};
ghost use Rattle.machine.specs.Effects.{has_failed};
ghost use Rattle.journal.specs.Memory.{disk_of};
ghost use Rattle.machine.specs.Nodes.{Appended};
ghost use Rattle.machine.specs.Openings.{Reread};

use crate::effects::Effects;
use crate::input::Input;
use crate::machine::Machine;
use crate::opening::open;
use journal::replay::OpenError;
use journal::source::memory::MemorySource;
use journal::store::memory::MemoryStore;
use journal::store::{Store, StoreError};
use message::refusal::Refusal;
use std::alloc::Global;

/// A machine with its journal. It is up while it has a machine that has come up; where its journal fails, it has none any more.
#[derive(Drop)]
pub struct Node<M, S> {
    machine: Option<M>,
    store: S,
}

// So many first bytes, or all where they are fewer.
fn first_bytes(bytes: &[u8], count: usize) -> &[u8]
    ensures { result.now ≡ take count bytes.now }
{
    &bytes[0..count.min(bytes.len())]
}

// Appends the records of a step. Nothing is appended where there was no memory for all that came of it.
fn append<S: Store>(store: &mut S, out: &Effects) -> Result<(), StoreError>
    ensures appended { Appended (S.disk store.old) out.now (S.disk store.new) result }
    ensures cause { HasCause (S.faults store.old) (S.faults store.new) result }
    ensures memory { IsErrOf result NoMemory → has_failed out.now ≡ false → S.in_memory }
{
    if out.has_failed() {
        return Err(StoreError::NoMemory);
    }
    if out.records.bytes.is_empty() {
        return Ok(());
    }
    store.append(&out.records.bytes)
}

impl<M: Machine + Drop, S: Store> Node<M, S> {
    ghost use Rattle.std.specs.Prelude.{◌≡◌, None, Some, is_some, option_copied, false, IsErrOf};
    ghost use Rattle.journal.specs.declared.store.StoreError.TheVariants.{NoMemory};
    ghost use Rattle.journal.specs.Causes.{HasCause};
    ghost use Rattle.journal.specs.Stores.{Saved};
    ghost use Rattle.machine.specs.Inputs.{input_of};
    ghost use Rattle.machine.specs.Effects.{has_failed};
    ghost use Rattle.machine.specs.Nodes.{Took, TookOut, Torn, WokeUp, IsKept, state_of, is_up};

    /// One that is down.
    pub fn new(store: S) -> Node<M, S>
        ensures { result ≡ record { machine = None; store = store } }
    {
        Node {
            machine: None,
            store,
        }
    }

    /// One with this machine, of which this is the journal.
    pub fn opened(machine: M, store: S) -> Node<M, S>
        ensures { result ≡ record { machine = Some machine; store = store } }
    {
        Node {
            machine: Some(machine),
            store,
        }
    }

    /// Its machine, where it has one.
    pub fn machine(&self) -> Option<&M>
        ensures value { option_copied result ≡ self.now.machine }
        ensures variant { is_some result ≡ is_some self.now.machine }
    {
        self.machine.as_ref()
    }

    /// Its journal.
    pub fn store(&self) -> &S
        ensures { result.now ≡ self.now.store }
    {
        &self.store
    }

    /// Stops: all but its journal is gone.
    pub fn stop(&mut self)
        ensures { self.new ≡ record self.old { machine = None } }
    {
        self.machine = None;
    }

    /// Whether it is up.
    pub fn is_up(&self) -> bool
        ensures { result ≡ is_up (state_of M.terms M.durable M.volatile S.disk self.now).machine }
    {
        match &self.machine {
            Some(machine) => machine.is_up(),
            None => false,
        }
    }

    /// Its journal is brought to the disk.
    pub fn sync(&mut self) -> Result<(), StoreError>
        ensures machine { self.new.machine ≡ self.old.machine }
        ensures saved { Saved (S.disk self.old.store) (S.disk self.new.store) result }
        ensures cause { HasCause (S.faults self.old.store) (S.faults self.new.store) result }
        ensures memory { IsErrOf result NoMemory → ⊥ }
    {
        self.store.sync()
    }

    // Takes the machine out, if it is up.
    fn take_machine(&mut self) -> Option<M>
        ensures { TookOut M.volatile self.old self.new result }
    {
        let machine = self.machine.take()?;
        if machine.is_up() {
            return Some(machine);
        }
        self.machine = Some(machine);
        None
    }

    /// Comes up, of which the records are appended.
    pub fn wake(
        &mut self,
        clock: u64,
        out: &mut Effects,
    ) -> Result<Option<Result<(), Refusal>>, StoreError>
        ensures woke { WokeUp M.redo M.wakes clock (state_of M.terms M.durable M.volatile S.disk self.old) (state_of M.terms M.durable M.volatile S.disk self.new) out.new result }
        ensures kept { IsKept M.owner M.redo M.fresh (state_of M.terms M.durable M.volatile S.disk self.old) → IsKept M.owner M.redo M.fresh (state_of M.terms M.durable M.volatile S.disk self.new) }
        ensures cause { HasCause (S.faults self.old.store) (S.faults self.new.store) result }
        ensures memory { IsErrOf result NoMemory → has_failed out.new ≡ false → S.in_memory }
    {
        out.clear();
        let Some(mut machine) = self.machine.take() else {
            return Ok(None);
        };
        let answer = machine.wake(clock, out);
        append(&mut self.store, out)?;
        self.machine = Some(machine);
        Ok(Some(answer))
    }

    /// Something comes to it: a step, of which the records are appended. Nothing of what came of it may leave before `sync`.
    pub fn take(
        &mut self,
        clock: u64,
        input: &Input<'_>,
        out: &mut Effects,
    ) -> Result<Option<Result<(), Refusal>>, StoreError>
        ensures took { Took M.redo M.rules clock (input_of input.now) (state_of M.terms M.durable M.volatile S.disk self.old) (state_of M.terms M.durable M.volatile S.disk self.new) out.new result }
        ensures kept { IsKept M.owner M.redo M.fresh (state_of M.terms M.durable M.volatile S.disk self.old) → IsKept M.owner M.redo M.fresh (state_of M.terms M.durable M.volatile S.disk self.new) }
        ensures cause { HasCause (S.faults self.old.store) (S.faults self.new.store) result }
        ensures memory { IsErrOf result NoMemory → has_failed out.new ≡ false → S.in_memory }
    {
        out.clear();
        let Some(mut machine) = self.take_machine() else {
            return Ok(None);
        };
        let answer = machine.step(clock, input, out);
        append(&mut self.store, out)?;
        self.machine = Some(machine);
        Ok(Some(answer))
    }

    /// Something comes to it, and it stops in the midst of the step: of its records so many first bytes are left. False where it was not
    /// up.
    pub fn take_torn(
        &mut self,
        clock: u64,
        input: &Input<'_>,
        left: usize,
        out: &mut Effects,
    ) -> Result<bool, StoreError>
        ensures torn { Torn M.redo M.rules clock (input_of input.now) left (state_of M.terms M.durable M.volatile S.disk self.old) (state_of M.terms M.durable M.volatile S.disk self.new) result }
        ensures cause { HasCause (S.faults self.old.store) (S.faults self.new.store) result }
        ensures memory { IsErrOf result NoMemory → has_failed out.new ≡ false → S.in_memory }
    {
        out.clear();
        let Some(mut machine) = self.take_machine() else {
            return Ok(false);
        };
        let _ = machine.step(clock, input, out);
        if out.has_failed() {
            return Err(StoreError::NoMemory);
        }
        self.store.append(first_bytes(&out.records.bytes, left))?;
        Ok(true)
    }
}

// A machine from what a store has, and how many bytes of that are whole records.
fn reread<M: Machine + Drop>(
    heap: Global,
    setting: M::Setting,
    store: &MemoryStore,
) -> Result<(M, usize), OpenError>
    ensures { Reread M.owner M.redo M.fresh (M.terms_of setting) M.terms M.durable M.volatile (disk_of store.now).appended result }
{
    let mut from = MemorySource::of(store.content());
    open(heap, setting, &mut from)
}

impl<M: Machine + Drop> Node<M, MemoryStore> {
    ghost use Rattle.std.specs.Prelude.{◌≡◌};
    ghost use Rattle.journal.specs.Memory.{disk_of};
    ghost use Rattle.machine.specs.Nodes.{IsKept, CameUp, state_of};

    /// Comes up from its journal, whatever it has in memory: the journal is read, cut after its whole records and synced; the records of
    /// coming up are appended. A refusal, and a journal that is none, leave the journal as it was.
    pub fn come_up(
        &mut self,
        heap: Global,
        setting: M::Setting,
        clock: u64,
        out: &mut Effects,
    ) -> Result<Result<(), Refusal>, OpenError>
        ensures came { CameUp M.owner M.redo M.fresh (M.terms_of setting) M.wakes clock (state_of M.terms M.durable M.volatile disk_of self.old) (state_of M.terms M.durable M.volatile disk_of self.new) out.new result }
        ensures kept { IsKept M.owner M.redo M.fresh (state_of M.terms M.durable M.volatile disk_of self.new) }
    {
        out.clear();
        self.machine = None;
        let (mut machine, size) = reread::<M>(heap, setting, &self.store)?;
        let woke = machine.wake(clock, out);
        if !machine.is_up() {
            return Ok(woke);
        }
        self.store.cut(size);
        self.store.sync()?;
        append(&mut self.store, out)?;
        self.machine = Some(machine);
        Ok(woke)
    }
}
