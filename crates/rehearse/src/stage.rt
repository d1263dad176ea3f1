ghost use Rattle.std.specs.Prelude.{◌≡◌, drop, OnOk};
ghost use Rattle.lines.specs.Outputs.{printed};
ghost use Rattle.site.specs.Led.{Reached};
ghost use Rattle.site.specs.Worlds.{world_of};
ghost use Rattle.rehearse.specs.Lines.{LineDone};
ghost use Rattle.rehearse.specs.Prints.{given_behind, said_behind, sents_behind, telling_behind};

use crate::print;
use crate::rehearsal::{Rehearsal, Said};
use clock::terms::Terms;
use lines::output::Output;
use message::form::Message;
use message::refusal::Refusal;
use script::step::{Step, parse};
use site::fault::Fault;
use site::seen::{Answer, Seen, Shown};
use startup::print::{answer, refused};
use startup::serve::Answers;
use std::alloc::{AllocError, Global};

/// A rehearsal whose lines are read and answered.
#[derive(Drop)]
pub struct Stage {
    rehearsal: Rehearsal,
}

impl Stage {
    /// At first all are down, and every clock shows 0.
    pub fn new(heap: Global, terms: Terms) -> Stage
        ensures { Reached result.rehearsal.site }
    {
        Stage {
            rehearsal: Rehearsal::new(heap, terms),
        }
    }

    // Prints the messages that were sent since so many were.
    fn sent_since(&self, from: usize, out: &mut Output) -> Result<(), AllocError>
        ensures { OnOk result (printed out.new ≡ sents_behind (printed out.old) from (drop from (world_of self.now.rehearsal.site).sent)) }
    {
        let site = &self.rehearsal.site;
        for index in from..site.sent() {
            print::sent(out, index, site.message(index))?;
        }
        Ok(())
    }
}

impl Answers for Stage {
    type Failure = Fault;

    // the site was reached by events, the clocks within their error: so all that is promised of a run is so of it
    ghost keeps = { λ s. Reached s.rehearsal.site };

    // nothing of it is on a disk
    ghost settled = { λ s. Unit {0} };

    // nothing
    ghost settles = { λ was is. is ≡ was };

    // what the line says is played; the messages that it sent are printed, and what is said of it
    ghost does = { λ was line p q is. LineDone was.rehearsal is.rehearsal line p q };

    fn answer(&mut self, line: &[u8], _buffer: &mut [u8], out: &mut Output) -> Result<(), Fault> {
        let before = self.rehearsal.site.sent();
        let step = parse(line);
        // nothing is played or said of such a line
        if let Some(Step::Blank) = step {
            return Ok(());
        }
        let said = self.rehearsal.play(step)?;
        // where all begins anew, what was sent before is gone, and none is left to be printed
        self.sent_since(before, out)?;
        Ok(say(said, out)?)
    }

    fn settle(&mut self) -> Result<(), Fault> {
        Ok(())
    }
}

// Prints what is said of a line.
fn say(said: Said, out: &mut Output) -> Result<(), AllocError>
    ensures { OnOk result (printed out.new ≡ said_behind (printed out.old) said) }
{
    match said {
        Said::Nothing => Ok(()),
        Said::Anew => print::word(out, "anew"),
        Said::Seen(Seen { told, answer }) => {
            telling(told, out)?;
            given(answer, out)
        }
        Said::Shown { shown, kept } => match shown {
            Shown::Copy(copy) => print::shown(out, &copy, &kept),
            Shown::Refused(refusal) => print::not_shown(out, refusal, &kept),
            Shown::Down => print::word(out, "down"),
        },
    }
}

// Prints what a writer is told, if anything.
fn telling(told: Option<Message>, out: &mut Output) -> Result<(), AllocError>
    ensures { OnOk result (printed out.new ≡ telling_behind (printed out.old) told) }
{
    match told {
        Some(message) => print::told(out, message),
        None => Ok(()),
    }
}

// Prints the answer to an event.
fn given(given: Answer, out: &mut Output) -> Result<(), AllocError>
    ensures { OnOk result (printed out.new ≡ given_behind (printed out.old) given) }
{
    match given {
        Answer::Given(result) => answer(out, result),
        Answer::Down => print::word(out, "down"),
        Answer::Stopped => print::word(out, "stopped"),
    }
}
