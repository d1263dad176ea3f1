ghost use Rattle.std.specs.Prelude.{◌≡◌, ℕ, Option, Result, IfOk, is_some, None};
ghost use Rattle.message.specs.declared.refusal.Refusal.{Refusal};
ghost use Rattle.journal.specs.declared.record.Owner.{Owner};
ghost use Rattle.journal.specs.Entries.{rec_of};
ghost use Rattle.journal.specs.Records.{Rec, AllSound};
ghost use Rattle.machine.specs.Effects.{Effect};
ghost use Rattle.machine.specs.Inputs.{Input, input_of};
ghost use Rattle.machine.specs.Machines.{Stepped, Woke, woken_records};
ghost use Rattle.std.specs.Option.{ForSome};

use crate::effects::Effects;
use crate::input::Input;
use journal::entry::Entry;
use journal::record::Owner;
use message::refusal::Refusal;
use std::alloc::{AllocError, Global};

/// What goes by steps. What outlasts a stop changes by records alone.
pub trait Machine {
    /// What it is told when it is made, and what never changes of it.
    type Setting;

    // the same in numbers; what outlasts a stop; and what a stop takes away
    ghost Terms: { Type 0 };

    ghost Durable: { Type 0 };

    ghost Volatile: { Type 0 };

    ghost terms_of: { Self.Setting → Terms };

    ghost terms: { Self → Terms };

    ghost durable: { Self → Durable };
    // none while it has not come up
    ghost volatile: { Self → Option Volatile };
    // whose journal it has, what an empty one makes, and what each record makes of that
    ghost owner: { Owner };

    ghost fresh: { Durable };

    ghost redo: { Durable → Rec → Durable };
    // the rules, for a step and for coming up
    ghost rules: { Terms → (clock : ℕ) → Input → Durable → Volatile → Volatile × Effect };

    ghost wakes: { Terms → (clock : ℕ) → Durable → Result (Volatile × Effect) Refusal };

    /// Whose journal it has.
    fn owner() -> Owner
        ensures { result ≡ owner };

    /// One whose journal is empty. It has not come up.
    fn new(heap: Global, setting: Self::Setting) -> Result<Self, AllocError>
        ensures durable { IfOk result (λ m. durable m ≡ fresh) }
        ensures terms { IfOk result (λ m. terms m ≡ terms_of setting) }
        ensures volatile { IfOk result (λ m. volatile m ≡ None) };

    /// A record is applied, as it comes or as it is read back.
    fn apply(&mut self, entry: &Entry<'_>)
        ensures durable { durable self.new ≡ redo (durable self.old) (rec_of entry.now) }
        ensures terms { terms self.new ≡ terms self.old }
        ensures volatile { volatile self.new ≡ volatile self.old };

    /// Whether it has come up.
    fn is_up(&self) -> bool
        ensures { result ≡ is_some (volatile self.now) };

    /// Comes up.
    fn wake(&mut self, clock: u64, out: &mut Effects) -> Result<(), Refusal>
        ensures woke { Woke redo (wakes (terms self.old) clock) (durable self.old) (durable self.new) (volatile self.old) (volatile self.new) out.old out.new result }
        ensures terms { terms self.new ≡ terms self.old }
        ensures sound { AllSound owner (woken_records (wakes (terms self.old) clock (durable self.old))) };

    /// Something comes to it.
    fn step(&mut self, clock: u64, input: &Input<'_>, out: &mut Effects) -> Result<(), Refusal>
        ensures stepped { Stepped redo (rules (terms self.old) clock (input_of input.now)) (durable self.old) (durable self.new) (volatile self.old) (volatile self.new) out.old out.new result }
        ensures terms { terms self.new ≡ terms self.old }
        ensures sound { ForSome (volatile self.old) (λ v. AllSound owner (rules (terms self.old) clock (input_of input.now) (durable self.old) v).1.records) };
}
