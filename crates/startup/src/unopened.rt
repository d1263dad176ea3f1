use journal::replay::OpenError;
use journal::source::file::CutError;
use journal::store::StoreError;
use journal::store::told::Told;

/// Why nothing was made of a journal, and what is known of its file then.
#[derive(Drop)]
pub struct Unopened {
    pub why: OpenError,
    pub known: Told,
}

impl Unopened {
    ghost use Rattle.std.specs.Prelude.{◌≡◌};
    ghost use Rattle.startup.specs.Openings.{told_by};
    ghost use Rattle.journal.specs.declared.replay.OpenError.TheVariants.{Store};
    ghost use Rattle.journal.specs.declared.store.StoreError.TheVariants.{Failed};

    /// It could not be cut, or was not read to its end before.
    pub fn uncut(why: CutError) -> Unopened
        ensures why { result.why ≡ Store Failed }
        ensures known { result.known ≡ told_by why }
    {
        let known = match why {
            CutError::Unread(told) => told,
            CutError::Failed(told) => told,
        };
        Unopened {
            why: OpenError::Store(StoreError::Failed),
            known,
        }
    }
}

// Where nobody asks what is left of the file.
impl From<Unopened> for OpenError {
    ghost use Rattle.std.specs.Prelude.{◌≡◌};

    ghost from_gives = { λ u e. e ≡ u.why };

    fn from(unopened: Unopened) -> OpenError {
        unopened.why
    }
}
