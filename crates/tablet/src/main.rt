// A tablet, by lines: calls and messages come in on standard input with readings of its clock, and what it sends and shows goes out.
#![tactic(auto)]

ghost use Rattle.std.specs.Prelude.{◌≡◌, [], IfOk};
ghost use Rattle.tablet.specs.Started.{Started};

use anyhow::{Context, bail};
use borrowing::setting::Setting;
use borrowing::tablet::Tablet;
use clock::terms::Terms;
use journal::replay::OpenError;
use journal::source::file::FileSource;
use journal::store::file::FileStore;
use lines::names::byte;
use part::who::Who;
use program::ByLines;
use startup::serve::{end, serve};
use startup::session::Session;
use startup::terms;
use std::alloc::Global;
use std::env;
use std::process::ExitCode;

mod calls;
mod program;

const USAGE: &str =
    "usage: tablet RATE SHORT LONG BORROWER FILE\nOne borrower's copies of parts, with its journal in FILE; BORROWER is 0 to 31.\nEach line of standard input begins with a reading of its clock:\n  CLOCK                  nothing else\n  CLOCK HEX              a message that came\n  CLOCK ask F P K        asks for part P of file F, K 0 for reading, 1 for writing\n  CLOCK show F P         shows the copy\n  CLOCK write F P HEX    writes the part: 1024 bytes\n  CLOCK forget F P       lets the copy go\nIt prints `send HEX` for each message that it sends, `show F P HEX`, `in F P N` or `void F P N`, and then `done` or `refused N`.\n";

const WANTED: &str = "five arguments are wanted: RATE SHORT LONG BORROWER FILE";

// The borrower that a word names.
fn borrower(word: &[u8]) -> Option<Who> {
    Who::new(byte(word)?)
}

// This borrower with these terms, from its journal.
fn open(
    heap: Global,
    who: Who,
    terms: Terms,
    journal: FileSource,
) -> Result<Session<Tablet, FileStore, ByLines>, OpenError>
    ensures { journal.told.appended ≡ [] → IfOk result (Started who terms.short) }
{
    let short = terms.short;
    Ok(Session::open(heap, Setting { who, short }, journal)?)
}

// Like the keeper's, and of other arguments and another owner of a journal: what the two share is in `startup`.
fn run(rt: &HostRuntime) -> anyhow::Result<()> {
    let mut args = env::args(rt)?;
    let _ = args.next();
    let rate = args.next().context(WANTED)?;
    if rate.as_str() == "--help" {
        rt.print(USAGE)?;
        return Ok(());
    }
    let (Some(short), Some(long), Some(id), Some(path), None) = (
        args.next(),
        args.next(),
        args.next(),
        args.next(),
        args.next(),
    ) else {
        bail!(WANTED);
    };
    let who = borrower(id.as_bytes()).context("BORROWER is a number from 0 to 31")?;
    let terms = terms(rate.as_bytes(), short.as_bytes(), long.as_bytes())?;
    let journal = FileSource::open(rt, path.as_str())?;
    serve(rt, &mut open(rt.alloc(), who, terms, journal)?)
}

fn main(rt: HostRuntime) -> ExitCode {
    end(&rt, "tablet", run(&rt))
}
