ghost use Rattle.std.specs.Prelude.{◌≡◌, option_map};
ghost use Rattle.message.specs.Format.{layout, WellFormed};
ghost use Rattle.message.specs.Buffers.{Grown};
ghost use Rattle.message.specs.Directions.{down_msg, for_borrower};
ghost use Rattle.message.specs.Reading.{ReadBody, read};

use crate::buffer::Buffer;
use crate::kind::Kind;
use part::files::PART_SIZE;
use part::head::{HEAD_SIZE, Head};
use part::place::Place;
use part::who::Who;

const LOAN: u8 = 2;

const IN: u8 = 4;

const VOID: u8 = 5;

const RECALL: u8 = 6;

/// A message to a borrower, with the bytes of the part that it carries.
#[derive(Clone, Copy, Debug, PartialEq, Eq)]
pub enum ToBorrower<'a> {
    /// the keeper lends a part, under the number of the ask
    Loan {
        head: Head,
        kind: Kind,
        part: &'a [u8; PART_SIZE],
    },
    /// the write of this number is applied
    In(Head),
    /// the write of this number is void
    Void(Head),
    /// the keeper wants a part back
    Recall {
        who: Who,
        place: Place,
    },
}

// The loan of which these bytes follow the first.
fn loan(body: &[u8]) -> Option<ToBorrower<'_>>
    ensures { ReadBody LOAN body.now (option_map down_msg result) }
{
    let head = Head::read(body)?;
    let [kind, part @ ..] = body.get(HEAD_SIZE..)? else {
        return None;
    };
    let kind = Kind::try_from(*kind).ok()?;
    let part = part.try_into().ok()?;
    Some(ToBorrower::Loan { head, kind, part })
}

// That a write is applied, where these bytes follow the first.
fn applied(body: &[u8]) -> Option<ToBorrower<'_>>
    ensures { ReadBody IN body.now (option_map down_msg result) }
{
    let head = Head::read_alone(body)?;
    Some(ToBorrower::In(head))
}

// That a write is void, where these bytes follow the first.
fn void(body: &[u8]) -> Option<ToBorrower<'_>>
    ensures { ReadBody VOID body.now (option_map down_msg result) }
{
    let head = Head::read_alone(body)?;
    Some(ToBorrower::Void(head))
}

// The recall of which these bytes follow the first.
fn recall(body: &[u8]) -> Option<ToBorrower<'_>>
    ensures { ReadBody RECALL body.now (option_map down_msg result) }
{
    let [who, file, part] = body else {
        return None;
    };
    let who = Who::new(*who)?;
    let place = Place::new(*file, *part)?;
    Some(ToBorrower::Recall { who, place })
}

impl<'a> ToBorrower<'a> {
    /// The message to a borrower that the bytes are; its part is lent from them.
    pub fn read(bytes: &'a [u8]) -> Option<ToBorrower<'a>>
        ensures { option_map down_msg result ≡ for_borrower (read bytes.now) }
    {
        match bytes {
            [LOAN, body @ ..] => loan(body),
            [IN, body @ ..] => applied(body),
            [VOID, body @ ..] => void(body),
            [RECALL, body @ ..] => recall(body),
            _ => None,
        }
    }

    /// There may be such a message: what it names is there, and a part has its size.
    pub fn well_formed(&self)
        ensures { WellFormed (down_msg self.now) }
    {
        match self {
            ToBorrower::Loan { head, part, .. } => {
                head.named();
                let _bytes: &[u8] = *part;
            }
            ToBorrower::In(head) | ToBorrower::Void(head) => head.named(),
            ToBorrower::Recall { who, place } => {
                let _who = *who;
                let _place = *place;
            }
        }
    }

    /// Appends its bytes.
    pub fn put(&self, out: &mut Buffer)
        ensures formed { WellFormed (down_msg self.now) }
        ensures bytes { Grown out.old out.new (layout (down_msg self.now)) }
    {
        match self {
            ToBorrower::Loan { head, kind, part } => {
                out.put_head(LOAN, head);
                out.put(&[u8::from(*kind)]);
                out.put(*part);
            }
            ToBorrower::In(head) => out.put_head(IN, head),
            ToBorrower::Void(head) => out.put_head(VOID, head),
            ToBorrower::Recall { who, place } => {
                out.put(&[RECALL, who.id, place.file(), place.part()]);
            }
        }
    }
}
