ghost use Rattle.std.specs.Prelude.{◌≡◌, ◌<◌, true, length, IsErrOf};
ghost use Rattle.journal.specs.declared.store.StoreError.TheVariants.{NoMemory};
ghost use Rattle.journal.specs.Stores.{Grown};
ghost use Rattle.journal.specs.Causes.{HasCause};
ghost use Rattle.journal.specs.Told.{told, Taken};

use crate::store::told::Told;
use crate::store::{Store, StoreError};
use std::fs::File;
use std::io::{ErrorKind, Write};

/// A file of the system that is written at its end.
#[derive(Drop)]
pub struct FileStore {
    file: File,
    pub told: Told,
    // all that was appended is on the disk
    clean: bool,
    ghost safe: { clean ≡ true → told.synced ≡ told.appended },
    ghost alone: { told.locked ≡ true },
}

// Has the system write first bytes of these, of which there are some, and says how many it took:
// none where a signal broke it off.
fn offer(file: &mut File, known: &mut Told, bytes: &[u8]) -> Result<usize, StoreError>
    requires { 0 < length bytes.now }
    ensures taken { Taken known.old bytes.now known.new result }
    ensures locked { known.new.locked ≡ known.old.locked }
{
    match file.write(bytes) {
        Ok(count) if count > 0 => {
            known.append(&bytes[..count]);
            Ok(count)
        }
        Ok(_) => {
            known.fail();
            Err(StoreError::Failed)
        }
        Err(e) => {
            known.fail();
            if e.kind() == ErrorKind::Interrupted {
                Ok(0)
            } else {
                Err(StoreError::Failed)
            }
        }
    }
}

// Writes the bytes, again after a signal.
fn put(file: &mut File, known: &mut Told, bytes: &[u8]) -> Result<(), StoreError>
    ensures grown { Grown (told known.old) bytes.now (told known.new) result }
    ensures cause { HasCause known.old.faults known.new.faults result }
    ensures memory { IsErrOf result NoMemory → ⊥ }
    ensures locked { known.new.locked ≡ known.old.locked }
{
    let mut done = 0;
    // A loop without a count would ask for a handle that may wait. And `write_all` would not say how
    // many bytes the system took. Each turn that took none was a failure of the system, so there is
    // one where the count runs out.
    for _ in 0..u64::MAX {
        if done == bytes.len() {
            break;
        }
        done += offer(file, known, &bytes[done..])?;
    }
    if done < bytes.len() {
        return Err(StoreError::Failed);
    }
    Ok(())
}

impl FileStore {
    // A file all of which is on the disk.
    pub(crate) fn begin(file: File, told: Told) -> FileStore
        requires safe { told.synced ≡ told.appended }
        requires alone { told.locked ≡ true }
        ensures { result.told ≡ told }
    {
        FileStore {
            file,
            told,
            clean: true,
        }
    }
}

impl Store for FileStore {
    ghost disk = { λ s. told s.told };

    ghost faults = { λ s. s.told.faults };

    ghost in_memory = { ⊥ };

    fn append(&mut self, bytes: &[u8]) -> Result<(), StoreError> {
        self.clean = false;
        put(&mut self.file, &mut self.told, bytes)
    }

    // Where nothing has come since the last sync, the system isn't asked: answers that append nothing cost no sync.
    fn sync(&mut self) -> Result<(), StoreError> {
        if self.clean {
            return Ok(());
        }
        if self.file.sync_data().is_err() {
            self.told.fail();
            return Err(StoreError::Failed);
        }
        self.told.sync();
        self.clean = true;
        Ok(())
    }
}
