ghost use Rattle.std.specs.Prelude.{◌≡◌, ◌≤◌, ℕ, List, [], length, is_ok, OnOk, OnErr, if◌then◌else◌};
ghost use Rattle.std.specs.Io.KnownBytes.{Appends};
ghost use Rattle.std.specs.Process.{exit_status};
ghost use Rattle.lines.specs.Outputs.{printed};
ghost use Rattle.startup.specs.Lines.{room};
ghost use Rattle.startup.specs.Serving.{HandedOn};
ghost use Rattle.startup.specs.Loops.{Served};

use crate::print::refused;
use crate::said::ROOM;
use anyhow::bail;
use lines::input::{Input, Line};
use lines::output::Output;
use message::refusal::Refusal;
use std::alloc::{AllocError, Global};
use std::error::Error;
use std::io;
use std::io::{Read, Write};
use std::process::ExitCode;

// So many bytes of answers leave together at most, and one line's more.
const BATCH: usize = 65536;

/// What answers the lines of a program's input.
pub trait Answers {
    /// Why a line is not answered.
    // A type of its own for each: `anyhow`'s holds 280 bytes of text, which each line would fill and move six times.
    type Failure: Error + From<AllocError> + Drop;

    // what it keeps from one line to the next, if it had it before the first
    ghost keeps: { Self → Type 0 };

    // all that its answers so far depend on is on the disk: they may leave
    ghost settled: { Self → Type 0 };

    // what settling changes
    ghost settles: { Self → Self → Type 0 };

    // what a line does: from what answered it and what was printed before, to what is printed and what answers the next line
    ghost does: { Self → (line printed_was printed_is : List ℕ) → Self → Type 0 };

    /// A line comes: what it says is done, and the answer is printed. It doesn't leave yet. Bytes that the line says may be put into
    /// the buffer, which each line uses again.
    fn answer(
        &mut self,
        line: &[u8],
        buffer: &mut [u8],
        out: &mut Output,
    ) -> Result<(), Self::Failure>
        requires room { length buffer.old ≡ room }
        ensures kept { OnOk result (keeps self.old → keeps self.new) }
        ensures done { OnOk result (does self.old line.now (printed out.old) (printed out.new) self.new) };

    /// Brings to the disk what the answers so far depend on.
    fn settle(&mut self) -> Result<(), Self::Failure>
        ensures kept { OnOk result (keeps self.old → keeps self.new) }
        ensures settled { OnOk result (settles self.old self.new) }
        ensures safe { OnOk result (settled self.new) };
}

// Hands on a line, or refuses one that the end of the input cut short, which does nothing.
fn answered<A: Answers>(
    to: &mut A,
    line: Line,
    text: &[u8],
    buffer: &mut [u8],
    out: &mut Output,
) -> Result<(), A::Failure>
    requires room { length buffer.old ≡ room }
    ensures kept { OnOk result (A.keeps to.old → A.keeps to.new) }
    ensures done { OnOk result (HandedOn A.does line to.old to.new text.now (printed out.old) (printed out.new)) }
{
    match line {
        Line::Whole => to.answer(text, buffer, out),
        Line::Cut => Ok(refused(out, Refusal::Malformed)?),
    }
}

// The same; no more is printed than before of a line that fails.
fn hand_on<A: Answers>(
    to: &mut A,
    line: Line,
    text: &[u8],
    buffer: &mut [u8],
    out: &mut Output,
) -> Result<(), A::Failure>
    requires room { length buffer.old ≡ room }
    ensures kept { OnOk result (A.keeps to.old → A.keeps to.new) }
    ensures done { OnOk result (HandedOn A.does line to.old to.new text.now (printed out.old) (printed out.new)) }
    ensures failed { OnErr result (length (printed out.new) ≤ length (printed out.old)) }
{
    let before = out.len();
    let done = answered(to, line, text, buffer, out);
    if done.is_err() {
        out.truncate(before);
    }
    done
}

// Lets the answers leave. Nothing else in a program writes what was printed, so none leaves before what it depends on is safe.
fn leave<A: Answers, W: Write>(to: &A, out: &mut Output, stdout: &mut W) -> io::Result<()>
    requires { A.settled to.now }
    ensures gone { OnOk result (Appends (W.contents stdout.old) (W.contents stdout.new) (printed out.old)) }
    ensures left { OnOk result (printed out.new ≡ []) }
{
    stdout.write_all(out.as_slice())?;
    out.clear();
    Ok(())
}

/// Hands on each line of the input, once, and lets the answers leave before more has to be read: those of lines that are waiting
/// together leave together, after one sync. A line that the end of the input cut short is refused.
pub fn serve_lines<A: Answers, R: Read, W: Write>(
    heap: Global,
    to: &mut A,
    stdin: &mut R,
    stdout: &mut W,
) -> anyhow::Result<()>
    ensures kept { OnOk result (A.keeps to.old → A.keeps to.new) }
    ensures served { OnOk result (Served A.does A.settles A.settled to.old to.new (R.remaining stdin.old) (R.remaining stdin.new) (W.contents stdout.old) (W.contents stdout.new)) }
{
    let mut input = Input::new(heap)?;
    let mut out = Output::new(heap);
    let mut buffer = Vec::new(heap);
    buffer.resize(ROOM, 0)?;
    // A count stays: a loop without one would ask for a handle that may wait. 2^64 lines are more than any input has.
    for _ in 0..u64::MAX {
        let Some(line) = input.next_line(stdin)? else {
            return Ok(());
        };
        let done = hand_on(to, line, input.line(), &mut buffer, &mut out);
        if done.is_err() || !input.has_line() || out.len() >= BATCH {
            to.settle()?;
            leave(to, &mut out, stdout)?;
        }
        done?;
    }
    bail!("there are more lines than can be counted")
}

/// Hands on each line of standard input to whom answers it, and writes the answers to standard output.
pub fn serve<A: Answers>(rt: &HostRuntime, to: &mut A) -> anyhow::Result<()>
    ensures { OnOk result (A.keeps to.old → A.keeps to.new) }
{
    serve_lines(rt.alloc(), to, &mut rt.stdin(), &mut rt.stdout())
}

/// How a program ends: an error is one line on standard error, behind the program's name, and status 1.
pub fn end(rt: &HostRuntime, name: &str, done: anyhow::Result<()>) -> ExitCode
    ensures { exit_status result ≡ (if is_ok done then 0 else 1) }
{
    match done {
        Ok(()) => ExitCode::SUCCESS,
        Err(why) => {
            let _ = eprintln!(rt; "{name}: {why}");
            ExitCode::FAILURE
        }
    }
}
