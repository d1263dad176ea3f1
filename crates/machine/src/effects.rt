use crate::items::Items;
use crate::notice::Notice;
use crate::outbox::Outbox;
use journal::entry::Entry;
use message::buffer::Buffer;
use message::to_borrower::ToBorrower;
use message::to_keeper::ToKeeper;
use part::place::Place;
use std::alloc::Global;

/// What steps give besides their answers: records; messages that may leave once these are on the disk; what writers are told; and
/// the parts of which the copies are shown.
#[derive(Drop)]
pub struct Effects {
    pub records: Buffer,
    pub sends: Outbox,
    pub tells: Items<Notice>,
    pub shows: Items<Place>,
}

impl Effects {
    ghost use Rattle.std.specs.Prelude.{◌≡◌, [], ◌∷◌, false, if◌then◌else◌};
    ghost use Rattle.message.specs.Format.{layout};
    ghost use Rattle.message.specs.Buffers.{Grown};
    ghost use Rattle.message.specs.Directions.{up_msg, down_msg};
    ghost use Rattle.journal.specs.Records.{layout as record_layout};
    ghost use Rattle.journal.specs.Entries.{rec_of};
    ghost use Rattle.machine.specs.Gains.{GainedBy};
    ghost use Rattle.machine.specs.Outboxes.{Sent};
    ghost use Rattle.machine.specs.Effects.{IsEmpty, has_failed, note_of, place_at};

    /// Nothing yet.
    pub fn new(heap: Global) -> Effects
        ensures { IsEmpty result }
    {
        Effects {
            records: Buffer::new(heap),
            sends: Outbox::new(heap),
            tells: Items::new(heap),
            shows: Items::new(heap),
        }
    }

    /// Lets go of all, and keeps the memory for the next step.
    pub fn clear(&mut self)
        ensures { IsEmpty self.new }
    {
        self.records.clear();
        self.sends.clear();
        self.tells.clear();
        self.shows.clear();
    }

    /// Whether there was no memory for some of it.
    pub fn has_failed(&self) -> bool
        ensures { result ≡ has_failed self.now }
    {
        self.records.failed || self.sends.buffer.failed || self.tells.failed || self.shows.failed
    }

    /// One more record.
    pub fn record(&mut self, entry: &Entry<'_>)
        ensures record { Grown self.old.records self.new.records (record_layout (rec_of entry.now)) }
        ensures rest { self.new ≡ record self.old { records = self.new.records } }
    {
        entry.put(&mut self.records);
    }

    /// One more message, to the keeper.
    pub fn to_keeper(&mut self, message: &ToKeeper<'_>)
        ensures message { Sent self.old.sends self.new.sends (layout (up_msg message.now) ∷ []) }
        ensures rest { self.new ≡ record self.old { sends = self.new.sends } }
    {
        self.sends.to_keeper(message);
    }

    /// One more message, to a borrower.
    pub fn to_borrower(&mut self, message: &ToBorrower<'_>)
        ensures message { Sent self.old.sends self.new.sends (layout (down_msg message.now) ∷ []) }
        ensures rest { self.new ≡ record self.old { sends = self.new.sends } }
    {
        self.sends.to_borrower(message);
    }

    /// The writer is told this.
    pub fn tell(&mut self, notice: Notice)
        ensures notice { GainedBy note_of self.old.tells self.new.tells (note_of notice ∷ []) }
        ensures rest { self.new ≡ record self.old { tells = self.new.tells } }
    {
        self.tells.push(notice);
    }

    /// The copy of this part is shown.
    pub fn show(&mut self, place: Place)
        ensures place { GainedBy place_at self.old.shows self.new.shows (place.at ∷ []) }
        ensures rest { self.new ≡ record self.old { shows = self.new.shows } }
    {
        self.shows.push(place);
    }
}
