ghost use Rattle.std.specs.Prelude.{◌≡◌, OnOk, ◌++◌, take};
ghost use Rattle.journal.specs.Records.{bytes_of};
ghost use Rattle.journal.specs.Logs.{logged};
ghost use Rattle.journal.specs.Memory.{disk_of};

use journal::record::{Record, encode};
use journal::store::memory::MemoryStore;
use journal::store::{Store, StoreError};

/// Appends, of the record of a step, if there is one, only so many first bytes: what a stop in the midst of the step leaves.
pub fn append_torn(
    journal: &mut MemoryStore,
    record: Option<Record>,
    part: &[u8; 1024],
    left: u64,
) -> Result<(), StoreError>
    ensures { OnOk result ((disk_of journal.new).appended ≡ (disk_of journal.old).appended ++ take left (bytes_of (logged part.now «record»))) }
{
    let Some(record) = record else {
        return Ok(());
    };
    let mut out = [0; 1032];
    let size = encode(&record, part, &mut out).unwrap();
    let left = usize::try_from(left).map_or(size, |left| left.min(size));
    journal.append(&out[0..left])
}
