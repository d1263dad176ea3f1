ghost use Rattle.std.specs.Prelude.{◌≡◌, ◌++◌, map, OnOk};
ghost use Rattle.lines.specs.Outputs.{printed};
ghost use Rattle.machine.specs.Effects.{place_at, note_of};
ghost use Rattle.machine.specs.Outboxes.{sent};
ghost use Rattle.startup.specs.Prints.{refused_text, answer_text, sent_text, place_text, shown_text, word_text, note_text, shows_text, sends_text, tells_text, out_text};

use crate::program::Program;
use lines::output::Output;
use machine::effects::Effects;
use machine::machine::Machine;
use machine::notice::Notice;
use machine::outbox::Outbox;
use message::refusal::Refusal;
use part::files::PART_SIZE;
use part::place::Place;
use std::alloc::AllocError;

/// Prints a refusal by its number.
// What is printed stays beside what it is printed to, here and below: no value holds both.
pub fn refused(out: &mut Output, refusal: Refusal) -> Result<(), AllocError>
    ensures { OnOk result (printed out.new ≡ printed out.old ++ refused_text refusal) }
{
    out.text("refused ")?;
    out.number(u64::from(refusal.number()))?;
    out.text("\n")
}

/// Prints the answer to a line.
pub fn answer(out: &mut Output, answer: Result<(), Refusal>) -> Result<(), AllocError>
    ensures { OnOk result (printed out.new ≡ printed out.old ++ answer_text answer) }
{
    match answer {
        Ok(()) => out.text("done\n"),
        Err(refusal) => refused(out, refusal),
    }
}

// Prints a part's file and number.
fn place(out: &mut Output, place: Place) -> Result<(), AllocError>
    ensures { OnOk result (printed out.new ≡ printed out.old ++ place_text place.at) }
{
    out.number(u64::from(place.file()))?;
    out.text(" ")?;
    out.number(u64::from(place.part()))
}

// Prints the copy of a part that is shown.
fn shown(out: &mut Output, at: Place, copy: &[u8; PART_SIZE]) -> Result<(), AllocError>
    ensures { OnOk result (printed out.new ≡ printed out.old ++ shown_text at.at copy.now) }
{
    out.text("show ")?;
    place(out, at)?;
    out.text(" ")?;
    out.hex(copy)?;
    out.text("\n")
}

// Prints a message that is sent, by its bytes.
fn message(out: &mut Output, bytes: &[u8]) -> Result<(), AllocError>
    ensures { OnOk result (printed out.new ≡ printed out.old ++ sent_text bytes.now) }
{
    out.text("send ")?;
    out.hex(bytes)?;
    out.text("\n")
}

// Prints a word about a write, by its part and number.
fn word(out: &mut Output, word: &str, at: Place, number: u32) -> Result<(), AllocError>
    ensures { OnOk result (printed out.new ≡ printed out.old ++ word_text word.now at.at number) }
{
    out.text(word)?;
    place(out, at)?;
    out.text(" ")?;
    out.number(u64::from(number))?;
    out.text("\n")
}

// Prints what a writer is told.
fn notice(out: &mut Output, notice: Notice) -> Result<(), AllocError>
    ensures { OnOk result (printed out.new ≡ printed out.old ++ note_text (note_of notice)) }
{
    match notice {
        Notice::In { place, number } => word(out, "in ", place, number),
        Notice::Void { place, number } => word(out, "void ", place, number),
    }
}

// Prints all messages of a step.
fn sends(out: &mut Output, outbox: &Outbox) -> Result<(), AllocError>
    ensures { OnOk result (printed out.new ≡ printed out.old ++ sends_text (sent outbox.now)) }
{
    let mut rest = outbox.buffer.bytes.as_slice();
    for size in &outbox.sizes {
        let (bytes, more) = rest.split_at((*size).min(rest.len()));
        message(out, bytes)?;
        rest = more;
    }
    Ok(())
}

// Prints all that writers are told.
fn tells(out: &mut Output, notices: &[Notice]) -> Result<(), AllocError>
    ensures { OnOk result (printed out.new ≡ printed out.old ++ tells_text (map note_of notices.now)) }
{
    for told in notices {
        notice(out, *told)?;
    }
    Ok(())
}

// Prints the copies that are shown.
fn shows<M: Machine, P: Program<M>>(
    out: &mut Output,
    places: &[Place],
    machine: &M,
) -> Result<(), AllocError>
    ensures { OnOk result (printed out.new ≡ printed out.old ++ shows_text (P.copies machine.now) (map place_at places.now)) }
{
    for at in places {
        shown(out, *at, P::copy(machine, *at))?;
    }
    Ok(())
}

/// Prints what a step gives besides its answer.
pub fn given<M: Machine, P: Program<M>>(
    out: &mut Output,
    effects: &Effects,
    machine: &M,
) -> Result<(), AllocError>
    ensures { OnOk result (printed out.new ≡ printed out.old ++ out_text (P.copies machine.now) effects.now) }
{
    shows::<M, P>(out, &effects.shows.items, machine)?;
    sends(out, &effects.sends)?;
    tells(out, &effects.tells.items)
}
