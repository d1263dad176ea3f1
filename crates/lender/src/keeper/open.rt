ghost use Rattle.std.specs.Prelude.{◌≡◌, IfOk, OnOk};
ghost use Rattle.part.specs.Parts.{blank};
ghost use Rattle.lender.specs.Book.{keeper_book, keeper_parts};
ghost use Rattle.lender.specs.Rules.{fresh};
ghost use Rattle.lender.specs.Replay.{Redone};
ghost use Rattle.lender.specs.OnDisk.{OpenedAs};

use crate::keeper::Keeper;
use crate::lender::Lender;
use journal::record::{Owner, Record};
use journal::replay::{Journaled, OpenError, read_through};
use journal::source::Source;
use part::files::Files;
use std::alloc::{AllocError, Global};

impl Keeper {
    /// Nothing was written yet: what an empty journal says.
    pub fn new(heap: Global, long: u64) -> Result<Keeper, AllocError>
        ensures { IfOk result (λ k. (keeper_book k ≡ fresh long) × (keeper_parts k ≡ blank)) }
    {
        Ok(Keeper {
            lender: Lender::new(heap, long)?,
            files: Files::new(heap)?,
        })
    }

    /// A keeper from its journal, which is read to its end, and how many bytes of it are whole records: after them it is to be cut before
    /// the keeper writes to it. It is not up before `come_up`.
    pub fn open<S: Source>(
        heap: Global,
        long: u64,
        journal: &mut S,
    ) -> Result<(Keeper, usize), OpenError>
        ensures all { S.all journal.new ≡ S.all journal.old }
        ensures opened { OpenedAs (S.had journal.old) (S.had journal.new) long result }
        ensures ended { OnOk result (S.ended journal.new) }
    {
        let mut keeper = Keeper::new(heap, long)?;
        let size = read_through(Owner::Keeper, journal, &mut keeper)?;
        Ok((keeper, size))
    }
}

impl Journaled for Keeper {
    ghost becomes = { λ was r is. Redone was r is };

    fn apply(&mut self, record: Record, part: &[u8; 1024]) {
        match record {
            Record::Applied(head) => {
                self.files.write(head.place, part);
                self.lender.set_done(head);
            }
            Record::VoidUpTo(head) => self.lender.set_void(head),
            Record::Numbers { .. } => {}
        }
    }
}
