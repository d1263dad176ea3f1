ghost use Rattle.std.specs.Prelude.{◌≡◌, OnOk};
ghost use Rattle.machine.specs.Openings.{OpenedAs};

use crate::machine::Machine;
use journal::entry::Entry;
use journal::journaled::{Journaled, read_through};
use journal::replay::OpenError;
use journal::source::Source;
use std::alloc::Global;

// A machine whose journal is read back.
#[derive(Drop)]
struct Rereading<M> {
    machine: M,
}

impl<M: Machine> Journaled for Rereading<M> {
    ghost use Rattle.std.specs.Prelude.{Option};

    ghost State = { M.Durable };

    ghost Fixed = { M.Terms × Option M.Volatile };

    ghost state = { λ r. M.durable r.machine };

    ghost fixed = { λ r. (M.terms r.machine, M.volatile r.machine) };

    ghost redo = { M.redo };

    fn apply(&mut self, entry: &Entry<'_>) {
        self.machine.apply(entry);
    }
}

/// A machine from its journal, which is read to its end, and how many bytes of that are whole records: there it is to be cut before
/// anything is appended. The machine has not come up.
pub fn open<M: Machine + Drop, F: Source>(
    heap: Global,
    setting: M::Setting,
    journal: &mut F,
) -> Result<(M, usize), OpenError>
    ensures all { F.all journal.new ≡ F.all journal.old }
    ensures ended { OnOk result (F.ended journal.new) }
    ensures opened { OpenedAs M.owner M.redo M.fresh (M.terms_of setting) M.terms M.durable M.volatile (F.had journal.old) (F.had journal.new) result }
{
    let machine = M::new(heap, setting)?;
    let mut reading = Rereading { machine };
    let size = read_through(M::owner(), journal, heap, &mut reading)?;
    Ok((reading.machine, size))
}
