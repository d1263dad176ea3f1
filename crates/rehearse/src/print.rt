ghost use Rattle.std.specs.Prelude.{◌≡◌, Some, OnOk};
ghost use Rattle.lines.specs.Outputs.{printed};
ghost use Rattle.message.specs.Format.{said};
ghost use Rattle.message.specs.Kinds.{kind_byte};
ghost use Rattle.message.specs.Reading.{read};
ghost use Rattle.rehearse.specs.Prints.{word_behind, also_behind, about_behind, head_behind, bytes_behind, body_behind, message_behind, sent_behind, told_behind, kept_behind, shown_behind, not_shown_behind};

use lines::output::Output;
use message::decode::{carried_part, decode};
use message::form::Message;
use message::kind::Kind;
use message::refusal::Refusal;
use part::head::Head;
use part::place::Place;
use part::who::Who;
use std::alloc::AllocError;

/// Prints a line that is one word.
// What is printed stays beside what it is printed to, here and below: no value holds both.
pub fn word(out: &mut Output, text: &str) -> Result<(), AllocError>
    ensures { OnOk result (printed out.new ≡ word_behind (printed out.old) text.now) }
{
    out.text(text)?;
    out.end_line()
}

// Prints a number behind a space.
fn also(out: &mut Output, number: u64) -> Result<(), AllocError>
    ensures { OnOk result (printed out.new ≡ also_behind (printed out.old) number) }
{
    out.text(" ")?;
    out.number(number)
}

// Prints which borrower and which part.
fn about(out: &mut Output, word: &str, who: Who, place: Place) -> Result<(), AllocError>
    ensures { OnOk result (printed out.new ≡ about_behind (printed out.old) word.now who.id place.at) }
{
    out.text(word)?;
    also(out, u64::from(who.id))?;
    also(out, u64::from(place.file()))?;
    also(out, u64::from(place.part()))
}

fn head(out: &mut Output, word: &str, head: Head) -> Result<(), AllocError>
    ensures { OnOk result (printed out.new ≡ head_behind (printed out.old) word.now head.who.id head.place.at head.number) }
{
    about(out, word, head.who, head.place)?;
    also(out, u64::from(head.number))
}

fn kind(out: &mut Output, kind: Kind) -> Result<(), AllocError>
    ensures { OnOk result (printed out.new ≡ also_behind (printed out.old) (kind_byte kind)) }
{
    also(out, u64::from(u8::from(kind)))
}

// Prints the bytes of a part behind a space, without the zeros at their end.
fn bytes(out: &mut Output, part: &[u8; 1024]) -> Result<(), AllocError>
    ensures { OnOk result (printed out.new ≡ bytes_behind (printed out.old) part.now) }
{
    out.text(" ")?;
    out.trimmed(part)
}

// Prints what a message says, with the part that it carries.
fn body(out: &mut Output, message: Message, part: &[u8; 1024]) -> Result<(), AllocError>
    ensures { OnOk result (printed out.new ≡ body_behind (printed out.old) (said part.now message)) }
{
    match message {
        Message::Ask(ask) => {
            head(out, "ask", ask.head)?;
            kind(out, ask.kind)?;
            also(out, u64::from(ask.written))
        }
        Message::Loan { head: h, kind: k } => {
            head(out, "loan", h)?;
            kind(out, k)?;
            bytes(out, part)
        }
        Message::Write(h) => {
            head(out, "write", h)?;
            bytes(out, part)
        }
        Message::In(h) => head(out, "in", h),
        Message::Void(h) => head(out, "void", h),
        Message::Recall { who, place } => about(out, "recall", who, place),
        Message::Back(h) => head(out, "back", h),
    }
}

// Prints a message as a line's last words.
fn message(out: &mut Output, message: Message, part: &[u8; 1024]) -> Result<(), AllocError>
    ensures { OnOk result (printed out.new ≡ message_behind (printed out.old) (said part.now message)) }
{
    body(out, message, part)?;
    out.end_line()
}

// Prints a message that is sent, with the part that it carries.
fn numbered(
    out: &mut Output,
    index: usize,
    sent: Message,
    part: &[u8; 1024],
) -> Result<(), AllocError>
    ensures { OnOk result (printed out.new ≡ sent_behind (printed out.old) index (Some (said part.now sent))) }
{
    out.text("sent ")?;
    out.number((index as u64).saturating_add(1))?;
    out.text(" ")?;
    message(out, sent, part)
}

/// Prints a message that is sent, counted from 0, by its number in the script, which counts from 1.
pub fn sent(out: &mut Output, index: usize, bytes: &[u8]) -> Result<(), AllocError>
    ensures { OnOk result (printed out.new ≡ sent_behind (printed out.old) index (read bytes.now)) }
{
    let Ok(sent) = decode(bytes) else {
        return Ok(());
    };
    match carried_part(bytes) {
        Some(part) => numbered(out, index, sent, part),
        None => numbered(out, index, sent, &[0; 1024]),
    }
}

/// Prints what a writer is told.
pub fn told(out: &mut Output, told: Message) -> Result<(), AllocError>
    ensures { OnOk result (printed out.new ≡ told_behind (printed out.old) told) }
{
    out.text("told ")?;
    message(out, told, &[0; 1024])
}

// Prints what the keeper has, as a line's last words.
fn kept(out: &mut Output, kept: &[u8; 1024]) -> Result<(), AllocError>
    ensures { OnOk result (printed out.new ≡ kept_behind (printed out.old) kept.now) }
{
    out.text(" keeper")?;
    bytes(out, kept)?;
    out.end_line()
}

/// Prints what is shown, beside what the keeper has.
pub fn shown(out: &mut Output, copy: &[u8; 1024], keeper: &[u8; 1024]) -> Result<(), AllocError>
    ensures { OnOk result (printed out.new ≡ shown_behind (printed out.old) copy.now keeper.now) }
{
    out.text("shown")?;
    bytes(out, copy)?;
    kept(out, keeper)
}

/// Prints that nothing is shown, beside what the keeper has.
pub fn not_shown(out: &mut Output, refusal: Refusal, keeper: &[u8; 1024]) -> Result<(), AllocError>
    ensures { OnOk result (printed out.new ≡ not_shown_behind (printed out.old) refusal keeper.now) }
{
    out.text("refused ")?;
    out.number(u64::from(refusal.number()))?;
    kept(out, keeper)
}
