ghost use Rattle.std.specs.Prelude.{◌≡◌, ℕ, List, [], IfOk, OnOk};
ghost use Rattle.message.specs.Reading.{read};
ghost use Rattle.journal.specs.Logs.{Logged};
ghost use Rattle.borrower.specs.Tablets.{part_at, filed_at};
ghost use Rattle.borrower.specs.Outcomes.{effect, recorded_by, Stepped, call_effect, call_part, heard_effect, Heard};
ghost use Rattle.borrower.specs.OnDisk.{OnDisk};

use crate::outcome::{Call, Outcome};
use crate::tablet::Tablet;
use journal::log::log;
use journal::record::Record;
use journal::store::{Store, StoreError};
use part::place::Place;

// The clauses `logged` and `disk` stand with both: what is in the journal, and what that says.

// Appends the record of a step, if there is one, and syncs. No part goes with a borrower's records.
fn log_numbers<S: Store>(store: &mut S, due: Option<Record>) -> Result<(), StoreError>
    ensures { OnOk result (Logged (recorded_by due) (S.disk store.old) (S.disk store.new)) }
{
    log(store, due, &[0; 1024])
}

impl Tablet {
    /// A call. Once it is answered, the record of it is in the journal, and synced; and the journal says what is on file.
    pub fn call<S: Store>(
        &mut self,
        store: &mut S,
        clock: u64,
        place: Place,
        call: Call,
    ) -> Result<Outcome, StoreError>
        ensures effect { IfOk result (λ o. (v : List ℕ) → effect v o ≡ call_effect self.old.who.id place.at v clock self.old.short call (part_at self.old place.at) (filed_at self.old place.at)) }
        ensures left { Stepped self.old self.new place.at (call_part clock self.old.short call (part_at self.old place.at)) }
        ensures logged { IfOk result (λ o. Logged (recorded_by o.record) (S.disk store.old) (S.disk store.new)) }
        ensures disk { OnOk result (OnDisk self.old (S.disk store.old).appended → OnDisk self.new (S.disk store.new).appended) }
    {
        let done = self.perform(clock, place, call);
        log_numbers(store, done.record)?;
        Ok(done)
    }

    /// A message. Once it is answered, the record of it is in the journal, and synced; and the journal says what is on file.
    pub fn hear<S: Store>(&mut self, store: &mut S, bytes: &[u8]) -> Result<Outcome, StoreError>
        ensures effect { IfOk result (λ o. effect [] o ≡ heard_effect self.old.who.id (read bytes.now) (part_at self.old) (filed_at self.old)) }
        ensures left { Heard self.old self.new (read bytes.now) }
        ensures logged { IfOk result (λ o. Logged (recorded_by o.record) (S.disk store.old) (S.disk store.new)) }
        ensures disk { OnOk result (OnDisk self.old (S.disk store.old).appended → OnDisk self.new (S.disk store.new).appended) }
    {
        let heard = self.receive(bytes);
        log_numbers(store, heard.record)?;
        Ok(heard)
    }
}
