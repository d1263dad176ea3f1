ghost use Rattle.std.specs.Prelude.{◌≡◌, [], OnOk};
ghost use Rattle.journal.specs.Records.{Rec};
ghost use Rattle.journal.specs.Entries.{rec_of};
ghost use Rattle.journal.specs.Made.{Redone, Replayed, ReadThrough};
ghost use Rattle.journal.specs.Reading.{Judged};
ghost use Rattle.journal.specs.Windows.{left};

use crate::entry::Entry;
use crate::record::Owner;
use crate::replay::OpenError;
use crate::source::Source;
use crate::store::StoreError;
use crate::window::{BLOCK, Window};
use message::form::Malformed;
use std::alloc::Global;

/// What the records of a journal make.
pub trait Journaled {
    // what outlasts a stop, and what no record changes
    ghost State: { Type 0 };

    ghost Fixed: { Type 0 };

    ghost state: { Self → State };

    ghost fixed: { Self → Fixed };

    // what a record makes of a state
    ghost redo: { State → Rec → State };

    /// A record is applied, as it comes or as it is read back.
    fn apply(&mut self, entry: &Entry<'_>)
        ensures redone { state self.new ≡ redo (state self.old) (rec_of entry.now) }
        ensures fixed { fixed self.new ≡ fixed self.old };
}

// Judges alone: its records make nothing.
#[derive(Drop)]
struct Judge;

impl Journaled for Judge {
    ghost State = { Unit {0} };

    ghost Fixed = { Unit {0} };

    ghost state = { λ j. tt };

    ghost fixed = { λ j. tt };

    ghost redo = { λ s r. s };

    fn apply(&mut self, _entry: &Entry<'_>) {}
}

// Applies the whole records that the bytes begin with, and says where they end; an error where what follows them is
// neither torn nor a record.
fn redo_all<R: Journaled>(owner: Owner, bytes: &[u8], into: &mut R) -> Result<usize, Malformed>
    ensures redone { Redone owner R.redo bytes.now (R.state into.old) (R.state into.new) result }
    ensures fixed { R.fixed into.new ≡ R.fixed into.old }
{
    let mut at = 0;
    while let Some((entry, size)) = Entry::read(owner, &bytes[at..])? {
        into.apply(&entry);
        at += size;
    }
    Ok(at)
}

/// Where the whole records of a journal end: there it is cut when it is opened. One in which something follows that is
/// neither torn nor a record is refused whole.
pub fn whole(owner: Owner, bytes: &[u8]) -> Result<usize, Malformed>
    ensures { Judged owner bytes.now result }
{
    redo_all(owner, bytes, &mut Judge)
}

/// Applies the whole records of a journal one after another, and says where they end. The journal is judged first: where
/// it is refused nothing is applied.
pub fn replay<R: Journaled>(owner: Owner, bytes: &[u8], into: &mut R) -> Result<usize, Malformed>
    ensures replayed { Replayed owner R.redo bytes.now (R.state into.old) (R.state into.new) result }
    ensures fixed { R.fixed into.new ≡ R.fixed into.old }
{
    whole(owner, bytes)?;
    redo_all(owner, bytes, into)
}

/// Reads a journal to its end, and applies its whole records as they come: how many bytes they have. There the journal
/// is to be cut before anything is appended. Where it is refused, or can't be read on, the records that came before are
/// applied all the same.
pub fn read_through<S: Source, R: Journaled>(
    owner: Owner,
    from: &mut S,
    heap: Global,
    into: &mut R,
) -> Result<usize, OpenError>
    ensures all { S.all from.new ≡ S.all from.old }
    ensures ended { OnOk result (S.ended from.new) }
    ensures through { ReadThrough owner R.redo (S.had from.old) (S.had from.new) (R.state into.old) (R.state into.new) result }
    ensures fixed { R.fixed into.new ≡ R.fixed into.old }
{
    let window = Window::new(heap, BLOCK)?;
    read_by(window, owner, from, into)
}

// The same through a window that holds nothing.
pub(crate) fn read_by<S: Source, R: Journaled>(
    mut window: Window,
    owner: Owner,
    from: &mut S,
    into: &mut R,
) -> Result<usize, OpenError>
    requires { left window ≡ [] }
    ensures all { S.all from.new ≡ S.all from.old }
    ensures ended { OnOk result (S.ended from.new) }
    ensures through { ReadThrough owner R.redo (S.had from.old) (S.had from.new) (R.state into.old) (R.state into.new) result }
    ensures fixed { R.fixed into.new ≡ R.fixed into.old }
{
    let mut size: usize = 0;
    // A count stays: a loop without one would ask for a handle that may wait.
    for _ in 0..u64::MAX {
        if window.fill(from)? == 0 {
            return Ok(size);
        }
        let Ok(done) = redo_all(owner, window.left(), into) else {
            return Err(OpenError::Malformed(owner));
        };
        window.pass(done);
        let Some(end) = size.checked_add(done) else {
            return Err(OpenError::Store(StoreError::Failed));
        };
        size = end;
    }
    Err(OpenError::Store(StoreError::Failed))
}
