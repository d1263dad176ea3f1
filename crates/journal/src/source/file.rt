ghost use Rattle.std.specs.Prelude.{◌≡◌, ◌<◌, ◌≤◌, true, length};
ghost use Rattle.journal.specs.Told.{Got};

use crate::source::Source;
use crate::store::StoreError;
use crate::store::file::FileStore;
use crate::store::told::Told;
use std::error::Error;
use std::fs::{File, OpenOptions, TryLockError};
use std::io::{ErrorKind, Read};
use std::path::Path;
use std::{fmt, io};

/// Why a file was not opened.
#[derive(Debug, Drop)]
pub enum FileError {
    /// another program has it
    InUse,
    /// the system could not open it, or not bring it to the disk
    System(io::Error),
}

// As whoever started a program reads it, who calls the file FILE.
impl fmt::Display for FileError {
    ghost use Rattle.journal.specs.Files.{file_error_text};

    ghost output = { file_error_text };

    fn fmt<W: fmt::Write>(&self, f: &mut fmt::Formatter<W>) -> fmt::Result {
        match self {
            FileError::InUse => f.write_str("FILE is in use by another program"),
            FileError::System(why) => fmt::Display::fmt(why, f),
        }
    }
}

impl Error for FileError {}

impl From<io::Error> for FileError {
    ghost use Rattle.std.specs.Prelude.{◌≡◌};
    ghost use Rattle.journal.specs.declared.source.file.FileError.TheVariants.{System};

    ghost from_gives = { λ why e. e ≡ System why };

    fn from(why: io::Error) -> FileError {
        FileError::System(why)
    }
}

impl From<TryLockError> for FileError {
    fn from(why: TryLockError) -> FileError {
        match why {
            TryLockError::WouldBlock => FileError::InUse,
            TryLockError::Error(why) => FileError::System(why),
        }
    }
}

/// Why a file was not cut.
#[derive(Drop)]
pub enum CutError {
    /// it was not read to its end; what is known of the file
    Unread(Told),
    /// the disk failed; what is known of the file then
    Failed(Told),
}

/// A file of the system that is read. What it has is on the disk.
#[derive(Drop)]
pub struct FileSource {
    file: File,
    pub told: Told,
    // how many bytes were read, or the greatest number where these are more
    size: usize,
    ended: bool,
    ghost long: { size < 18446744073709551615 → length told.appended ≤ size },
    ghost safe: { told.synced ≡ told.appended },
    ghost alone: { told.locked ≡ true },
    ghost uncut: { told.found ≡ told.appended },
}

// Brings the folder of a file to the disk, so that the file's name is there after a stop.
fn sync_folder(rt: &HostRuntime, path: &str) -> io::Result<()> {
    let folder = Path::new(path)
        .parent()
        .map_or("", |folder| folder.as_str());
    let folder = if folder.is_empty() { "." } else { folder };
    File::open(rt, folder)?.sync_all()
}

// Reads into the first bytes of the block, again after a signal, and says how many came.
fn fetch(file: &mut File, known: &mut Told, block: &mut [u8]) -> Result<usize, StoreError>
    ensures got { Got known.old known.new (length block.old) block.new result }
    ensures locked { known.new.locked ≡ known.old.locked }
{
    // A loop without a count would ask for a handle that may wait. Each turn that goes on was a
    // failure of the system.
    for _ in 0..u64::MAX {
        match file.read(block) {
            Ok(count) => {
                known.read(&block[..count]);
                return Ok(count);
            }
            Err(e) => {
                known.fail();
                if e.kind() != ErrorKind::Interrupted {
                    break;
                }
            }
        }
    }
    Err(StoreError::Failed)
}

impl FileSource {
    ghost use Rattle.std.specs.Prelude.{[], take, IfOk, IfErr};
    ghost use Rattle.journal.specs.Files.{Uncut};

    /// Opens a file, or makes it, and keeps it from other programs as long as it is open: where one
    /// of them has it, nothing is done to it. What it has is on the disk, and so is its name in its
    /// folder.
    pub fn open(rt: &HostRuntime, path: &str) -> Result<FileSource, FileError>
        ensures { IfOk result (λ s. s.told.appended ≡ []) }
    {
        let mut how = OpenOptions::new();
        how.read(true).append(true).create(true);
        let file = how.open(rt, path)?;
        let mut told = Told::nothing();
        file.try_lock()?;
        told.lock();
        file.sync_all()?;
        sync_folder(rt, path)?;
        Ok(FileSource {
            file,
            told,
            size: 0,
            ended: false,
        })
    }

    /// Lets go of the file, as it is; what is known of it.
    pub fn close(self) -> Told
        ensures { result ≡ self.told }
    {
        let FileSource { told, .. } = self;
        told
    }

    /// Cuts the file to so many of the bytes that were read, on the disk too: from now on it is
    /// written. Before all of it was read, that is refused.
    pub fn cut(self, size: usize) -> Result<FileStore, CutError>
        ensures uncut { IfErr result (Uncut self size) }
        ensures cut { IfOk result (λ f. (f.told.appended ≡ take size self.told.appended)
            × (f.told.synced ≡ f.told.appended) × (self.ended ≡ true)) }
        ensures found { IfOk result (λ f. f.told.found ≡ self.told.found) }
    {
        let FileSource {
            file,
            mut told,
            size: long,
            ended,
        } = self;
        if !ended {
            return Err(CutError::Unread(told));
        }
        if size < long || long == usize::MAX {
            // `as u64` stays: the library has no `From` for it.
            if file.set_len(size as u64).is_err() {
                told.fail();
                return Err(CutError::Failed(told));
            }
            told.cut(size);
            if file.sync_data().is_err() {
                told.fail();
                return Err(CutError::Failed(told));
            }
        }
        Ok(FileStore::begin(file, told))
    }
}

impl Source for FileSource {
    ghost use Rattle.std.specs.Prelude.{None};

    ghost had = { λ s. s.told.appended };

    ghost ended = { λ s. s.ended ≡ true };

    ghost all = { λ _. None };

    ghost faults = { λ s. s.told.faults };

    fn read(&mut self, block: &mut [u8]) -> Result<usize, StoreError> {
        let count = fetch(&mut self.file, &mut self.told, block)?;
        self.size = self.size.saturating_add(count);
        self.ended = self.ended || (count == 0 && !block.is_empty());
        Ok(count)
    }
}
