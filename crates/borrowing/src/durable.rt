ghost use Rattle.std.specs.Prelude.{◌≡◌, vec_len};

use crate::hold::Part;
use crate::on_file::OnFile;
use journal::entry::Entry;
use machine::effects::Effects;
use part::place::Place;
use std::alloc::{AllocError, Global};

/// How many parts there are.
pub(crate) const PARTS: usize = 16384;

/// What outlasts a stop: of each part the numbers on file.
#[derive(Drop)]
pub struct Durable {
    numbers: Vec<OnFile>,
    ghost all: { vec_len numbers ≡ 16384 },
}

impl Durable {
    ghost use Rattle.std.specs.Prelude.{IfOk};
    ghost use Rattle.message.specs.Buffers.{Grown};
    ghost use Rattle.journal.specs.Entries.{rec_of};
    ghost use Rattle.journal.specs.Records.{layout};
    ghost use Rattle.borrowing.specs.Rules.{fresh, redo};
    ghost use Rattle.borrowing.specs.Durables.{durable_of, Kept};

    /// No part was asked for.
    pub fn new(heap: Global) -> Result<Durable, AllocError>
        ensures { IfOk result (λ d. durable_of d ≡ fresh) }
    {
        let numbers = Vec::from_elem(heap, OnFile::default(), PARTS)?;
        Ok(Durable { numbers })
    }

    /// The numbers of a part.
    pub fn numbers(&self, place: Place) -> OnFile
        ensures { result ≡ durable_of self.now place.at }
    {
        self.numbers[usize::from(place.at)]
    }

    /// A record is applied, as it comes or as it is read back.
    pub fn apply(&mut self, entry: &Entry<'_>)
        ensures { durable_of self.new ≡ redo (durable_of self.old) (rec_of entry.now) }
    {
        match entry {
            Entry::Applied { .. } | Entry::VoidUpTo(_) => {}
            Entry::Numbers { place, ask, write } => {
                let filed = OnFile {
                    ask: *ask,
                    write: *write,
                };
                self.numbers[usize::from(place.at)] = filed;
            }
        }
    }

    // A record is applied, and given out.
    fn enter(&mut self, entry: &Entry<'_>, out: &mut Effects)
        ensures durable { durable_of self.new ≡ redo (durable_of self.old) (rec_of entry.now) }
        ensures records { Grown out.old.records out.new.records (layout (rec_of entry.now)) }
        ensures rest { out.new ≡ record out.old { records = out.new.records } }
    {
        self.apply(entry);
        out.record(entry);
    }

    /// A step makes `next` of the part that was `part`: where its numbers pass those on file, a record
    /// is given.
    pub fn keep(&mut self, place: Place, part: Part, next: Part, out: &mut Effects)
        ensures { Kept place.at part next self.old self.new out.old out.new }
    {
        let filed = self.numbers(place);
        if part != next && filed.is_passed(next) {
            let OnFile { ask, write } = filed.raised(next);
            self.enter(&Entry::Numbers { place, ask, write }, out);
        }
    }
}
