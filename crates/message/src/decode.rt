ghost use Rattle.std.specs.Prelude.{◌≡◌, ◌<◌, length, MatchOption, Some, None};
ghost use Rattle.message.specs.Format.{Decoded, DecodedBody, Only, NotOnly, carried};
ghost use Rattle.message.specs.Reading.{heard, read};

use crate::form::{Ask, Malformed, Message};
use crate::kind::Kind;
use part::head::Head;
use part::number::number_at;
use part::place::Place;
use part::who::Who;

fn ask(body: &[u8]) -> Option<Message>
    ensures { DecodedBody 1 body.now result }
{
    let head = Head::read(body)?;
    if body.len() != 12 {
        return None;
    }
    let kind = Kind::try_from(body[7]).ok()?;
    let written = number_at(body, 8)?;
    Some(Message::Ask(Ask {
        head,
        kind,
        written,
    }))
}

fn loan(body: &[u8]) -> Option<Message>
    ensures { DecodedBody 2 body.now result }
{
    let head = Head::read(body)?;
    if body.len() != 1032 {
        return None;
    }
    let kind = Kind::try_from(body[7]).ok()?;
    Some(Message::Loan { head, kind })
}

fn write(body: &[u8]) -> Option<Message>
    ensures { DecodedBody 3 body.now result }
{
    let head = Head::read(body)?;
    if body.len() != 1031 {
        return None;
    }
    Some(Message::Write(head))
}

// The head that the bytes are, with nothing behind it.
fn only_head(body: &[u8]) -> Option<Head>
    ensures { MatchOption result (NotOnly body.now) (λ h. Only body.now h) }
{
    let head = Head::read(body)?;
    if body.len() == 7 { Some(head) } else { None }
}

fn recall(body: &[u8]) -> Option<Message>
    ensures { DecodedBody 6 body.now result }
{
    let [who, file, part] = body else {
        return None;
    };
    let who = Who::new(*who)?;
    let place = Place::new(*file, *part)?;
    Some(Message::Recall { who, place })
}

// The message with this first byte and these bytes after it.
fn after_first(first: u8, body: &[u8]) -> Option<Message>
    ensures { DecodedBody first body.now result }
{
    match first {
        1 => ask(body),
        2 => loan(body),
        3 => write(body),
        4 => only_head(body).map(Message::In),
        5 => only_head(body).map(Message::Void),
        6 => recall(body),
        7 => only_head(body).map(Message::Back),
        0 | 8..=255 => None,
    }
}

/// The message that the bytes are, or that they are none.
pub fn decode(bytes: &[u8]) -> Result<Message, Malformed>
    ensures exact { Decoded bytes.now result }
    ensures reads { heard bytes.now result ≡ read bytes.now }
{
    let [first, body @ ..] = bytes else {
        return Err(Malformed);
    };
    after_first(*first, body).ok_or(Malformed)
}

/// The part's bytes that a loan or a write carries: the last 1,024, where there are so many.
pub fn carried_part(bytes: &[u8]) -> Option<&[u8; 1024]>
    ensures { MatchOption result (length bytes.now < 1024) (λ v. v.now ≡ carried bytes.now) }
{
    bytes.last_chunk()
}
