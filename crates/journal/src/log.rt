ghost use Rattle.std.specs.Prelude.{OnOk};
ghost use Rattle.journal.specs.Logs.{Logged, logged};

use crate::record::Record;
use crate::store::{Store, StoreError, commit_record};

/// Appends the record of a step, if there is one, and syncs: once it is done, the record is on the disk, and what the
/// step sends or shows may leave. `part` has the part's bytes where the record says that a part was applied.
pub fn log<S: Store>(
    store: &mut S,
    record: Option<Record>,
    part: &[u8; 1024],
) -> Result<(), StoreError>
    ensures { OnOk result (Logged (logged part.now «record») (S.disk store.old) (S.disk store.new)) }
{
    match record {
        Some(record) => commit_record(store, &record, part),
        None => Ok(()),
    }
}
