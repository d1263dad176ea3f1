use crate::failure::Failure;
use crate::print;
use crate::print::refused;
use crate::program::Program;
use crate::said::{Said, read};
use crate::serve::Answers;
use crate::unopened::Unopened;
use journal::source::file::FileSource;
use journal::store::file::FileStore;
use journal::store::{Store, StoreError};
use lines::output::Output;
use machine::effects::Effects;
use machine::input::Input;
use machine::machine::Machine;
use machine::node::Node;
use machine::opening::open;
use message::refusal::Refusal;
use std::alloc::Global;
use std::marker::PhantomData;

/// A program's machine with its journal, what came of its last step, and what its clock read last: a reading counts also where the
/// machine can't come up.
#[derive(Drop)]
pub struct Session<M, S, P> {
    node: Node<M, S>,
    effects: Effects,
    last: u64,
    program: PhantomData<P>,
}

impl<M: Machine + Drop, P: Program<M>> Session<M, FileStore, P> {
    ghost use Rattle.std.specs.Prelude.{◌≡◌, [], IfOk, IfErr};
    ghost use Rattle.journal.specs.Told.{told};
    ghost use Rattle.machine.specs.Nodes.{state_of};
    ghost use Rattle.startup.specs.Openings.{Began, NotBegun};

    /// A machine from the journal in a file, of which nothing was read yet. The file is cut after its last whole record, on the disk
    /// too. One that is no journal of this owner's is left as it is.
    pub fn open(
        heap: Global,
        setting: M::Setting,
        mut journal: FileSource,
    ) -> Result<Session<M, FileStore, P>, Unopened>
        ensures began { journal.told.appended ≡ [] → IfOk result (Began M.owner M.redo M.fresh
            (state_of M.terms M.durable M.volatile (λ f. told f.told)) (λ f. f.told.found)
            (M.terms_of setting)) }
        ensures spared { journal.told.appended ≡ [] → IfErr result (NotBegun M.owner) }
    {
        let (machine, size) = match open(heap, setting, &mut journal) {
            Ok(opened) => opened,
            Err(why) => {
                return Err(Unopened {
                    why,
                    known: journal.close(),
                });
            }
        };
        let store = journal.cut(size).map_err(Unopened::uncut)?;
        Ok(Session::new(heap, Node::opened(machine, store)))
    }
}

impl<M: Machine + Drop, S: Store, P: Program<M>> Session<M, S, P> {
    ghost use Rattle.std.specs.Prelude.{◌≡◌, ◌++◌, None, length, OnOk, OnErr, IfOk};
    ghost use Rattle.std.specs.Option.{option_map};
    ghost use Rattle.lines.specs.Outputs.{printed};
    ghost use Rattle.lines.specs.Words.{words};
    ghost use Rattle.machine.specs.Inputs.{input_of};
    ghost use Rattle.machine.specs.Nodes.{state_of, IsKept};
    ghost use Rattle.startup.specs.Lines.{room, said_in, said_of};
    ghost use Rattle.startup.specs.Prints.{out_text};
    ghost use Rattle.startup.specs.Sessions.{copies_in, Synced, CameUp, Stepped, Heard, Done};

    /// It comes up with the first line.
    pub fn new(heap: Global, node: Node<M, S>) -> Session<M, S, P>
        ensures node { result.node ≡ node }
        ensures last { result.last ≡ 0 }
    {
        Session {
            node,
            effects: Effects::new(heap),
            last: 0,
            program: PhantomData,
        }
    }

    // Prints what the last step gave besides its answer.
    fn print(&self, out: &mut Output) -> Result<(), Failure>
        ensures { OnOk result (printed out.new ≡ printed out.old ++ out_text (copies_in P.copies self.now.node.machine) self.now.effects) }
    {
        let machine = self.node.machine().ok_or(StoreError::Failed)?;
        Ok(print::given::<M, P>(out, &self.effects, machine)?)
    }

    // Brings to the disk what was appended, where each line's records are synced by themselves.
    fn commit(&mut self) -> Result<(), Failure>
        ensures rest { self.new ≡ record self.old { node = self.new.node } }
        ensures machine { self.new.node.machine ≡ self.old.node.machine }
        ensures synced { OnOk result (Synced P.syncs_each (S.disk self.old.node.store) (S.disk self.new.node.store)) }
        ensures kept { (S.disk self.new.node.store).appended ≡ (S.disk self.old.node.store).appended }
    {
        if P::syncs_each() {
            self.node.sync()?;
        }
        Ok(())
    }

    // The machine comes up, if it is not.
    fn come_up(&mut self, clock: u64, out: &mut Output) -> Result<Result<(), Refusal>, Failure>
        ensures kept { IsKept M.owner M.redo M.fresh (state_of M.terms M.durable M.volatile S.disk self.old.node) → IsKept M.owner M.redo M.fresh (state_of M.terms M.durable M.volatile S.disk self.new.node) }
        ensures up { IfOk result (CameUp (state_of M.terms M.durable M.volatile S.disk) M.redo P.syncs_each P.copies M.wakes clock self.old.node self.new.node (printed out.old) (printed out.new)) }
        ensures last { self.new.last ≡ self.old.last }
    {
        if self.node.is_up() {
            return Ok(Ok(()));
        }
        let Some(answer) = self.node.wake(clock, &mut self.effects)? else {
            return Err(Failure::Store(StoreError::Failed));
        };
        self.commit()?;
        self.print(out)?;
        Ok(answer)
    }

    // Something comes to the machine, which is up. Its records are in the journal, synced where each line's are by themselves.
    fn take(&mut self, clock: u64, input: &Input<'_>, out: &mut Output) -> Result<(), Failure>
        ensures kept { IsKept M.owner M.redo M.fresh (state_of M.terms M.durable M.volatile S.disk self.old.node) → IsKept M.owner M.redo M.fresh (state_of M.terms M.durable M.volatile S.disk self.new.node) }
        ensures stepped { OnOk result (Stepped (state_of M.terms M.durable M.volatile S.disk) M.redo P.syncs_each P.copies M.rules clock (input_of input.now) self.old.node self.new.node (printed out.old) (printed out.new)) }
        ensures last { self.new.last ≡ self.old.last }
    {
        let answer = self.node.take(clock, input, &mut self.effects)?;
        let answer = answer.ok_or(StoreError::Failed)?;
        self.commit()?;
        self.print(out)?;
        Ok(print::answer(out, answer)?)
    }

    // What a line says comes.
    fn hear(&mut self, said: &Said<'_>, out: &mut Output) -> Result<(), Failure>
        ensures kept { IsKept M.owner M.redo M.fresh (state_of M.terms M.durable M.volatile S.disk self.old.node) → IsKept M.owner M.redo M.fresh (state_of M.terms M.durable M.volatile S.disk self.new.node) }
        ensures heard { OnOk result (Heard (state_of M.terms M.durable M.volatile S.disk) M.redo P.syncs_each P.copies M.rules M.wakes said.now.clock (input_of said.now.input) self.old.node self.new.node (printed out.old) (printed out.new)) }
        ensures last { self.new.last ≡ self.old.last }
    {
        match self.come_up(said.clock, out)? {
            Ok(()) => self.take(said.clock, &said.input, out),
            Err(refusal) => Ok(refused(out, refusal)?),
        }
    }

    // A line comes, which says this, if it is in one of the forms.
    fn say(&mut self, said: Option<Said<'_>>, out: &mut Output) -> Result<(), Failure>
        ensures kept { IsKept M.owner M.redo M.fresh (state_of M.terms M.durable M.volatile S.disk self.old.node) → IsKept M.owner M.redo M.fresh (state_of M.terms M.durable M.volatile S.disk self.new.node) }
        ensures done { OnOk result (Done (state_of M.terms M.durable M.volatile S.disk) M.redo P.syncs_each P.copies M.rules M.wakes (option_map said_of said.entry) self.old self.new (printed out.old) (printed out.new)) }
    {
        let Some(said) = said else {
            return Ok(refused(out, Refusal::Malformed)?);
        };
        if said.clock < self.last {
            return Ok(refused(out, Refusal::Malformed)?);
        }
        self.last = said.clock;
        self.hear(&said, out)
    }

    /// A line comes. Where that fails the machine is down: of its records, or of what it sent, some is lost, as by a stop.
    pub fn line(&mut self, line: &[u8], buffer: &mut [u8], out: &mut Output) -> Result<(), Failure>
        requires { length buffer.old ≡ room }
        ensures kept { IsKept M.owner M.redo M.fresh (state_of M.terms M.durable M.volatile S.disk self.old.node) → IsKept M.owner M.redo M.fresh (state_of M.terms M.durable M.volatile S.disk self.new.node) }
        ensures done { OnOk result (Done (state_of M.terms M.durable M.volatile S.disk) M.redo P.syncs_each P.copies M.rules M.wakes (said_in P.calls (words line.now)) self.old self.new (printed out.old) (printed out.new)) }
        ensures down { OnErr result (self.new.node.machine ≡ None) }
    {
        let said = read::<M, P>(line, buffer);
        match self.say(said, out) {
            Ok(()) => Ok(()),
            Err(why) => {
                self.node.stop();
                Err(why)
            }
        }
    }
}

impl<M: Machine + Drop, S: Store, P: Program<M>> Answers for Session<M, S, P> {
    ghost use Rattle.std.specs.Prelude.{◌≡◌};
    ghost use Rattle.lines.specs.Words.{words};
    ghost use Rattle.machine.specs.Nodes.{state_of, IsKept};
    ghost use Rattle.startup.specs.Lines.{said_in};
    ghost use Rattle.startup.specs.Sessions.{Done};

    type Failure = Failure;

    // what the machine has of what outlasts a stop is what the journal makes
    ghost keeps = { λ s. IsKept M.owner M.redo M.fresh (state_of M.terms M.durable M.volatile S.disk s.node) };

    // all of the journal is on the disk
    ghost settled = { λ s. (S.disk s.node.store).synced ≡ (S.disk s.node.store).appended };

    // of all that it has only what is on the disk may change
    ghost settles = { λ was is. (is.node.machine ≡ was.node.machine) × (is.last ≡ was.last) × ((S.disk is.node.store).appended ≡ (S.disk was.node.store).appended) };

    // from its words to what is printed
    ghost does = { λ was line p q is. Done (state_of M.terms M.durable M.volatile S.disk) M.redo P.syncs_each P.copies M.rules M.wakes (said_in P.calls (words line)) was is p q };

    fn answer(&mut self, line: &[u8], buffer: &mut [u8], out: &mut Output) -> Result<(), Failure> {
        self.line(line, buffer, out)
    }

    fn settle(&mut self) -> Result<(), Failure> {
        Ok(self.node.sync()?)
    }
}
