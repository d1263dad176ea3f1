// What the programs share: the terms that their arguments give, or why they don't start; and the lines that they print.
#![tactic(auto)]

ghost use Rattle.std.specs.Prelude.{◌≡◌, Some, MatchResult};
ghost use Rattle.lines.specs.Decimals.{number_of};
ghost use Rattle.startup.specs.Start.{no_start_text, unfit_start, why};

use clock::terms::{Terms, Unfit};
use lines::decimal::number;
use std::error::Error;
use std::fmt;

pub mod failure;
pub mod print;
pub mod program;
pub mod said;
pub mod serve;
pub mod session;
pub mod unopened;

/// Why a program does not start.
#[derive(Clone, Copy, Debug, PartialEq, Eq)]
pub enum NoStart {
    /// an argument is no number
    NoNumber,
    /// the terms don't fit together
    Unfit(Unfit),
}

// One line for whoever started the program.
impl fmt::Display for NoStart {
    ghost output = { λ start. Some (no_start_text start) };

    fn fmt<W: fmt::Write>(&self, f: &mut fmt::Formatter<W>) -> fmt::Result {
        match self {
            NoStart::NoNumber => f.write_str(
                "RATE, SHORT and LONG are numbers, decimal digits only",
            ),
            NoStart::Unfit(unfit) => write!(f, "{unfit}"),
        }
    }
}

impl Error for NoStart {}

impl From<Unfit> for NoStart {
    ghost from_gives = { λ unfit start. start ≡ unfit_start unfit };

    fn from(unfit: Unfit) -> NoStart {
        NoStart::Unfit(unfit)
    }
}

/// The terms that three words give, or why there are none.
pub fn terms(rate: &[u8], short: &[u8], long: &[u8]) -> Result<Terms, NoStart>
    ensures { MatchResult result (λ t. (number_of rate.now ≡ Some t.rate) × (number_of short.now ≡ Some t.short) × (number_of long.now ≡ Some t.long)) (λ e. why (number_of rate.now) (number_of short.now) (number_of long.now) ≡ Some e) }
{
    let rate = number(rate).ok_or(NoStart::NoNumber)?;
    let short = number(short).ok_or(NoStart::NoNumber)?;
    let long = number(long).ok_or(NoStart::NoNumber)?;
    Ok(Terms::new(rate, short, long)?)
}
