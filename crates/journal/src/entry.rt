ghost use Rattle.std.specs.Prelude.{◌∷◌};
ghost use Rattle.message.specs.Buffers.{Grown};
ghost use Rattle.journal.specs.declared.record.Owner.TheVariants.{Keeper as TheKeeper, Borrower as TheBorrower};
ghost use Rattle.journal.specs.Records.{layout};
ghost use Rattle.journal.specs.Entries.{rec_of, Begins};

use crate::record::Owner;
use message::buffer::Buffer;
use message::form::Malformed;
use part::head::Head;
use part::number::number_at;
use part::place::Place;

/// A record, with the bytes of the part that it carries.
#[derive(Clone, Copy, Debug, PartialEq, Eq)]
pub enum Entry<'a> {
    /// the keeper applied this write of this borrower
    Applied { head: Head, part: &'a [u8; 1024] },
    /// the keeper counts this borrower's writes of this part up to this number as void
    VoidUpTo(Head),
    /// a borrower has used no numbers of this part above these
    Numbers { place: Place, ask: u32, write: u32 },
}

// What begins with a first byte 8, by the bytes after it.
fn applied(body: &[u8]) -> Result<Option<(Entry<'_>, usize)>, Malformed>
    ensures { Begins TheKeeper (8 ∷ body.now) result }
{
    if body.len() < 1031 {
        return Ok(None);
    }
    let head = Head::read(body).ok_or(Malformed)?;
    let part = body[7..].first_chunk().ok_or(Malformed)?;
    Ok(Some((Entry::Applied { head, part }, 1032)))
}

// What begins with a first byte 9.
fn void_up_to(body: &[u8]) -> Result<Option<(Entry<'_>, usize)>, Malformed>
    ensures { Begins TheKeeper (9 ∷ body.now) result }
{
    if body.len() < 7 {
        return Ok(None);
    }
    let head = Head::read(body).ok_or(Malformed)?;
    Ok(Some((Entry::VoidUpTo(head), 8)))
}

// What begins with a first byte 10.
fn numbers(body: &[u8]) -> Result<Option<(Entry<'_>, usize)>, Malformed>
    ensures { Begins TheBorrower (10 ∷ body.now) result }
{
    if body.len() < 10 {
        return Ok(None);
    }
    let place = Place::new(body[0], body[1]).ok_or(Malformed)?;
    let ask = number_at(body, 2).unwrap();
    let write = number_at(body, 6).unwrap();
    Ok(Some((Entry::Numbers { place, ask, write }, 11)))
}

impl<'a> Entry<'a> {
    /// What the bytes begin with: a record, and how many bytes it has. None where nothing stands there, or less than
    /// the record that the first byte announces, as a stop may leave it; an error where no record of this owner's
    /// begins so.
    pub fn read(owner: Owner, bytes: &'a [u8]) -> Result<Option<(Entry<'a>, usize)>, Malformed>
        ensures { Begins owner bytes.now result }
    {
        let [kind, body @ ..] = bytes else {
            return Ok(None);
        };
        match (owner, *kind) {
            (Owner::Keeper, 8) => applied(body),
            (Owner::Keeper, 9) => void_up_to(body),
            (Owner::Keeper, 0..=7 | 10..=255) => Err(Malformed),
            (Owner::Borrower, 10) => numbers(body),
            (Owner::Borrower, 0..=9 | 11..=255) => Err(Malformed),
        }
    }

    /// Appends its bytes.
    pub fn put(&self, out: &mut Buffer)
        ensures { Grown out.old out.new (layout (rec_of self.now)) }
    {
        match self {
            Entry::Applied { head, part } => {
                out.put_head(8, head);
                out.put(*part);
            }
            Entry::VoidUpTo(head) => out.put_head(9, head),
            Entry::Numbers { place, ask, write } => {
                out.put(&[10, place.file(), place.part()]);
                out.put_number(*ask);
                out.put_number(*write);
            }
        }
    }
}
