ghost use Rattle.std.specs.Prelude.{◌≡◌};
ghost use Rattle.part.specs.Parts.{at_1};
ghost use Rattle.borrower.specs.Steps.{risen};
ghost use Rattle.borrower.specs.Tablets.{part_at, filed_at, copy_at};
ghost use Rattle.borrower.specs.Outcomes.{recorded_by, records_of, Stepped, Left};

use crate::hold::{OnFile, Part};
use crate::tablet::{Kept, Tablet};
use journal::record::Record;
use part::place::Place;

impl Tablet {
    // What is kept of a part.
    pub(crate) fn part(&self, place: Place) -> Part
        ensures { result ≡ part_at self.now place.at }
    {
        self.kept[usize::from(place.at)].part
    }

    // The part is as after coming up with these numbers in the journal.
    pub(crate) fn come_up(&mut self, place: Place, filed: OnFile)
        ensures { Left self.old self.new (at_1 place.at (risen filed) (part_at self.old)) (at_1 place.at filed (filed_at self.old)) (copy_at self.old) }
    {
        let part = Part::come_up(filed);
        self.kept[usize::from(place.at)] = Kept { part, filed };
    }

    // Writes the bytes of a copy.
    pub(crate) fn put_copy(&mut self, place: Place, bytes: &[u8; 1024])
        ensures { Left self.old self.new (part_at self.old) (filed_at self.old) (at_1 place.at bytes.now (copy_at self.old)) }
    {
        self.copies.write(place, bytes);
    }

    // Keeps what a step left of a part, and gives the record that has to be in the journal before anything leaves.
    pub(crate) fn keep(&mut self, place: Place, next: Part) -> Option<Record>
        ensures record { recorded_by result ≡ records_of place.at (part_at self.old place.at) (filed_at self.old place.at) next }
        ensures left { Stepped self.old self.new place.at next }
    {
        // `as usize` stays: with `usize::from` the proof did not close.
        let kept = &mut self.kept[place.at as usize];
        let is_due = kept.part != next && kept.filed.is_passed(next);
        kept.part = next;
        if !is_due {
            return None;
        }
        let filed = kept.filed.raised(next);
        kept.filed = filed;
        Some(Record::Numbers {
            place,
            ask: filed.ask,
            write: filed.write,
        })
    }
}
