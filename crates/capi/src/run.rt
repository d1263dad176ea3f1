use crate::misuse::Misuse;
use crate::put::put;
use crate::reply::Answer;
use journal::entry::Entry;
use journal::journaled::{Journaled, replay};
use machine::effects::Effects;
use machine::input::Input;
use machine::machine::Machine;
use message::refusal::Refusal;
use std::alloc::Global;

/// A machine of the host, and what came of its last step, of which the memory serves the next.
#[derive(Drop)]
pub struct Run<M> {
    pub machine: M,
    out: Effects,
}

impl<M: Machine> Journaled for Run<M> {
    ghost use Rattle.std.specs.Prelude.{Option};

    ghost State = { M.Durable };

    ghost Fixed = { M.Terms × Option M.Volatile };

    ghost state = { λ r. M.durable r.machine };

    ghost fixed = { λ r. (M.terms r.machine, M.volatile r.machine) };

    ghost redo = { M.redo };

    fn apply(&mut self, entry: &Entry<'_>) {
        self.machine.apply(entry);
    }
}

impl<M: Machine + Drop> Run<M> {
    ghost use Rattle.std.specs.Prelude.{◌≡◌, ◌≤◌, length};
    ghost use Rattle.std.specs.Option.{ForSome};
    ghost use Rattle.machine.specs.Inputs.{input_of};
    ghost use Rattle.capi.specs.Answers.{Fits};
    ghost use Rattle.capi.specs.Opening.{OpenedFrom};
    ghost use Rattle.capi.specs.Runs.{has, CameUp, Ran};

    /// One from the bytes of its journal, and how many of them are whole records. It has not come up.
    pub fn open(
        heap: Global,
        setting: M::Setting,
        journal: &[u8],
    ) -> Result<(Run<M>, usize), Misuse>
        ensures { OpenedFrom M.owner M.redo M.fresh (M.terms_of setting) (has M.terms M.durable M.volatile) journal.now result }
    {
        let machine = M::new(heap, setting)?;
        let out = Effects::new(heap);
        let mut run = Run { machine, out };
        let size = replay(M::owner(), journal, &mut run)?;
        Ok((run, size))
    }

    /// Comes up.
    pub fn wake(&mut self, clock: u64) -> Result<(), Refusal>
        ensures { CameUp M.redo M.wakes clock (has M.terms M.durable M.volatile self.old) (has M.terms M.durable M.volatile self.new) result }
    {
        self.out.clear();
        self.machine.wake(clock, &mut self.out)
    }

    /// Something comes to it while it is up: what comes of that is in the buffers.
    // The buffers stay two: the host does another thing with each.
    pub fn step(
        &mut self,
        clock: u64,
        input: &Input<'_>,
        filed: &mut [u8],
        sent: &mut [u8],
    ) -> Result<Answer, Misuse>
        requires room { 1032 ≤ length filed.old }
        requires fits { ForSome (M.volatile self.old.machine) (λ v. Fits (length sent.old) (M.rules (M.terms self.old.machine) clock (input_of input.now) (M.durable self.old.machine) v).1) }
        ensures { Ran M.owner M.redo (λ t. M.rules t clock (input_of input.now)) (has M.terms M.durable M.volatile) self.old self.new result filed.old filed.new sent.old sent.new }
    {
        if !self.machine.is_up() {
            return Err(Misuse::Handle);
        }
        self.out.clear();
        let answer = self.machine.step(clock, input, &mut self.out);
        if self.out.has_failed() {
            return Err(Misuse::NoMemory);
        }
        Ok(put(&self.out, answer, filed, sent))
    }
}
