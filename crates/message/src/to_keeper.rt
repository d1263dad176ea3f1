ghost use Rattle.std.specs.Prelude.{◌≡◌, option_map};
ghost use Rattle.message.specs.Format.{layout, WellFormed};
ghost use Rattle.message.specs.Buffers.{Grown};
ghost use Rattle.message.specs.Directions.{up_msg, for_keeper};
ghost use Rattle.message.specs.Reading.{ReadBody, read};

use crate::buffer::Buffer;
use crate::kind::Kind;
use part::files::PART_SIZE;
use part::head::{HEAD_SIZE, Head};
use part::number::number_at;

const ASK: u8 = 1;

const WRITE: u8 = 3;

const BACK: u8 = 7;

/// A message to the keeper, with the bytes of the part that it carries.
#[derive(Clone, Copy, Debug, PartialEq, Eq)]
pub enum ToKeeper<'a> {
    /// a borrower asks for a part; `written` is the number of its last write of the part
    Ask {
        head: Head,
        kind: Kind,
        written: u32,
    },
    /// a borrower writes a part
    Write {
        head: Head,
        part: &'a [u8; PART_SIZE],
    },
    /// a borrower gives back what it was lent for asks up to this number
    Back(Head),
}

// The ask of which these bytes follow the first.
fn ask(body: &[u8]) -> Option<ToKeeper<'_>>
    ensures { ReadBody ASK body.now (option_map up_msg result) }
{
    let head = Head::read(body)?;
    let [kind, written @ ..] = body.get(HEAD_SIZE..)? else {
        return None;
    };
    let kind = Kind::try_from(*kind).ok()?;
    let written: &[u8; 4] = written.try_into().ok()?;
    let written = number_at(written, 0)?;
    Some(ToKeeper::Ask {
        head,
        kind,
        written,
    })
}

// The write of which these bytes follow the first.
fn write(body: &[u8]) -> Option<ToKeeper<'_>>
    ensures { ReadBody WRITE body.now (option_map up_msg result) }
{
    let head = Head::read(body)?;
    let part = body.get(HEAD_SIZE..)?.try_into().ok()?;
    Some(ToKeeper::Write { head, part })
}

// The message of which these bytes follow the first, that gives a part back.
fn back(body: &[u8]) -> Option<ToKeeper<'_>>
    ensures { ReadBody BACK body.now (option_map up_msg result) }
{
    let head = Head::read_alone(body)?;
    Some(ToKeeper::Back(head))
}

impl<'a> ToKeeper<'a> {
    /// The message to the keeper that the bytes are; its part is lent from them.
    pub fn read(bytes: &'a [u8]) -> Option<ToKeeper<'a>>
        ensures { option_map up_msg result ≡ for_keeper (read bytes.now) }
    {
        match bytes {
            [ASK, body @ ..] => ask(body),
            [WRITE, body @ ..] => write(body),
            [BACK, body @ ..] => back(body),
            _ => None,
        }
    }

    /// There may be such a message: what it names is there, and a part has its size.
    pub fn well_formed(&self)
        ensures { WellFormed (up_msg self.now) }
    {
        match self {
            ToKeeper::Ask { head, written, .. } => {
                head.named();
                let _written = *written;
            }
            ToKeeper::Write { head, part } => {
                head.named();
                let _bytes: &[u8] = *part;
            }
            ToKeeper::Back(head) => head.named(),
        }
    }

    /// Appends its bytes.
    pub fn put(&self, out: &mut Buffer)
        ensures formed { WellFormed (up_msg self.now) }
        ensures bytes { Grown out.old out.new (layout (up_msg self.now)) }
    {
        match self {
            ToKeeper::Ask {
                head,
                kind,
                written,
            } => {
                out.put_head(ASK, head);
                out.put_kind(*kind, *written);
            }
            ToKeeper::Write { head, part } => {
                out.put_head(WRITE, head);
                out.put(*part);
            }
            ToKeeper::Back(head) => out.put_head(BACK, head),
        }
    }
}
