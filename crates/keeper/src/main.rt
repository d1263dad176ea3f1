// The keeper, by lines: messages come in on standard input with readings of its clock, and what it sends goes out.
#![tactic(auto)]

ghost use Rattle.std.specs.Prelude.{◌≡◌, [], IfOk};
ghost use Rattle.keeper.specs.Started.{Started};

use anyhow::{Context, bail};
use clock::terms::Terms;
use journal::replay::OpenError;
use journal::source::file::FileSource;
use journal::store::file::FileStore;
use keeping::keeper::Keeper;
use program::ByLines;
use startup::serve::{end, serve};
use startup::session::Session;
use startup::terms;
use std::alloc::Global;
use std::env;
use std::process::ExitCode;

mod program;

const USAGE: &str =
    "usage: keeper RATE SHORT LONG FILE\nKeeps the parts, with its journal in FILE.\nEach line of standard input is a reading of its clock, and a message in hexadecimal where one came: CLOCK or CLOCK HEX.\nIt prints `send HEX` for each message that it sends, and then `done` or `refused N`.\n";

const WANTED: &str = "four arguments are wanted: RATE SHORT LONG FILE";

// A keeper with these terms, from its journal.
fn open(
    heap: Global,
    terms: Terms,
    journal: FileSource,
) -> Result<Session<Keeper, FileStore, ByLines>, OpenError>
    ensures { journal.told.appended ≡ [] → IfOk result (Started terms.long) }
{
    Ok(Session::open(heap, terms.long, journal)?)
}

fn run(rt: &HostRuntime) -> anyhow::Result<()> {
    let mut args = env::args(rt)?;
    let _ = args.next();
    let rate = args.next().context(WANTED)?;
    if rate.as_str() == "--help" {
        rt.print(USAGE)?;
        return Ok(());
    }
    let (Some(short), Some(long), Some(path), None) = (
        args.next(),
        args.next(),
        args.next(),
        args.next(),
    ) else {
        bail!(WANTED);
    };
    let terms = terms(rate.as_bytes(), short.as_bytes(), long.as_bytes())?;
    let journal = FileSource::open(rt, path.as_str())?;
    serve(rt, &mut open(rt.alloc(), terms, journal)?)
}

fn main(rt: HostRuntime) -> ExitCode {
    end(&rt, "keeper", run(&rt))
}
