ghost use Rattle.std.specs.Prelude.{◌≡◌, IfOk, OnOk};
ghost use Rattle.borrower.specs.Tablets.{copy_at};
ghost use Rattle.borrower.specs.Outcomes.{Fresh, Reread};
ghost use Rattle.borrower.specs.Opened.{OpenedAs};

use crate::hold::OnFile;
use crate::tablet::{Kept, Tablet};
use journal::record::{Owner, Record};
use journal::replay::{Journaled, OpenError, read_through};
use journal::source::Source;
use part::files::Files;
use part::place::Place;
use part::who::Who;
use std::alloc::{AllocError, Global};

impl Tablet {
    /// A borrower that never asked for anything: what an empty journal says.
    // Heap, borrower and time stay three parameters: it is the tablet that holds them together.
    pub fn new(heap: Global, who: Who, short: u64) -> Result<Tablet, AllocError>
        ensures { IfOk result (λ t. Fresh who short t) }
    {
        let kept = Vec::from_elem(heap, Kept::default(), 16384)?;
        let copies = Files::new(heap)?;
        Ok(Tablet {
            who,
            short,
            kept,
            copies,
        })
    }

    /// A tablet that comes up from its journal, which is read to its end, and how many bytes of it are whole records: after them it is to
    /// be cut before the tablet writes to it.
    pub fn open<S: Source>(
        heap: Global,
        who: Who,
        short: u64,
        journal: &mut S,
    ) -> Result<(Tablet, usize), OpenError>
        ensures all { S.all journal.new ≡ S.all journal.old }
        ensures opened { OpenedAs (S.had journal.old) (S.had journal.new) who short result }
        ensures ended { OnOk result (S.ended journal.new) }
    {
        let mut tablet = Tablet::new(heap, who, short)?;
        let size = read_through(Owner::Borrower, journal, &mut tablet)?;
        Ok((tablet, size))
    }

    /// The bytes of a copy; they may be shown only where `show` said so.
    pub fn copy(&self, place: Place) -> &[u8; 1024]
        ensures { result.now ≡ copy_at self.now place.at }
    {
        self.copies.part(place)
    }
}

impl Journaled for Tablet {
    ghost becomes = { λ was r is. Reread was r is };

    fn apply(&mut self, record: Record, part: &[u8; 1024]) {
        match record {
            Record::Applied(_) | Record::VoidUpTo(_) => {}
            Record::Numbers { place, ask, write } => self.come_up(place, OnFile { ask, write }),
        }
    }
}
