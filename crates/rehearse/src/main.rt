// Plays a script: a keeper, the borrowers 0 to 3, the network, stops, and clocks that run as it says within their error.
#![tactic(auto)]

use anyhow::{Context, bail};
use stage::Stage;
use startup::serve::{end, serve};
use startup::terms;
use std::env;
use std::process::ExitCode;

mod print;
mod rehearsal;
mod stage;

const USAGE: &str =
    "usage: rehearse RATE SHORT LONG < SCRIPT\nPlays the script on standard input with one keeper and borrowers 0 to 3.\nRATE is how far off clocks may run, in parts of a million; SHORT and LONG are how long a loan is, in milliseconds, for the borrower and for the keeper.\nLines: set K [B0 ..]   anew   tick T [K [B0 ..]]   up W   stop W   B ask F P K   B show F P   B write F P HEX   B forget F P   deliver M [cut N] [to W]   # a comment\nBehind a call or a delivery, ` stop N` stops who does it in the midst of it, with N bytes of its record left.\n";

const WANTED: &str = "three arguments are wanted: RATE SHORT LONG";

fn run(rt: &HostRuntime) -> anyhow::Result<()> {
    let mut args = env::args(rt)?;
    let _ = args.next();
    let rate = args.next().context(WANTED)?;
    if rate.as_str() == "--help" {
        rt.print(USAGE)?;
        return Ok(());
    }
    let (Some(short), Some(long), None) = (args.next(), args.next(), args.next()) else {
        bail!(WANTED);
    };
    let terms = terms(rate.as_bytes(), short.as_bytes(), long.as_bytes())?;
    serve(rt, &mut Stage::new(rt.alloc(), terms))
}

fn main(rt: HostRuntime) -> ExitCode {
    end(&rt, "rehearse", run(&rt))
}
