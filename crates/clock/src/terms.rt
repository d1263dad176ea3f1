// The terms of leases, made only where they fit together.
ghost use Rattle.std.specs.Prelude.{◌≡◌, ◌≤◌, IfOk, Some, None, MatchResult, nat_le};
ghost use Rattle.clock.specs.Terms.{Fits, TermsSafe, long_reach, short_reach, unfit_text, verdict};

use std::error::Error;
use std::fmt;

/// How far off clocks may run, in parts of a million, and how many milliseconds a lease runs for the borrower and for the keeper.
#[derive(Clone, Copy, Debug, PartialEq, Eq)]
pub struct Terms {
    pub rate: u64,
    pub short: u64,
    pub long: u64,
    ghost fit: { Fits rate short long },
}

/// Why terms don't fit together: the first condition that fails, in this order.
#[derive(Clone, Copy, Debug, PartialEq, Eq)]
pub enum Unfit {
    RateTooHigh,
    ShortTooShort,
    LongTooLong,
    TooClose,
}

impl fmt::Display for Unfit {
    ghost output = { λ unfit. Some (unfit_text unfit) };

    fn fmt<W: fmt::Write>(&self, f: &mut fmt::Formatter<W>) -> fmt::Result {
        f.write_str(match self {
            Unfit::RateTooHigh => "RATE is above 10000",
            Unfit::ShortTooShort => "SHORT is below 1",
            Unfit::LongTooLong => "LONG is above 3600000",
            Unfit::TooClose =>
                "LONG is too close to SHORT: (SHORT + 1)(1000000 + RATE) + 2000000 is above (LONG - 1)(1000000 - RATE)",
        })
    }
}

impl Error for Unfit {}

impl Terms {
    /// The terms, or the first condition that they fail.
    pub fn new(rate: u64, short: u64, long: u64) -> Result<Terms, Unfit>
        ensures fields { IfOk result (λ t. (t.rate ≡ rate) × (t.short ≡ short) × (t.long ≡ long)) }
        ensures judged { MatchResult result (λ _. verdict rate short long ≡ None) (λ e. verdict rate short long ≡ Some e) }
    {
        if rate > 10_000 {
            return Err(Unfit::RateTooHigh);
        }
        if short < 1 {
            return Err(Unfit::ShortTooShort);
        }
        if long > 3_600_000 {
            return Err(Unfit::LongTooLong);
        }
        if !apart(rate, short, long) {
            return Err(Unfit::TooClose);
        }
        Ok(Terms { rate, short, long })
    }
}

/// Whether the borrower's lease ends before the keeper's, for any clocks within the error.
fn apart(rate: u64, short: u64, long: u64) -> bool
    requires { rate ≤ 10000 }
    ensures { result ≡ nat_le (short_reach rate short) (long_reach rate long) }
{
    let rate = u128::from(rate);
    let short_reach = (u128::from(short) + 1) * (1_000_000 + rate) + 2_000_000;
    let long_reach = u128::from(long.saturating_sub(1)) * (1_000_000 - rate);
    short_reach <= long_reach
}

/// Names the theorem that terms that fit are safe: while a lease runs for a borrower it runs for the keeper.
pub fn terms_are_safe()
    ensures { TermsSafe }
{}

#[cfg(test)]
mod tests {
    use super::*;

    #[test]
    fn edges(rt: HostRuntime) {
        const MAX: u64 = u64::MAX;
        let table = [
            // the bounds
            (10_000, 100, 1_000, None),
            (10_001, 100, 1_000, Some(Unfit::RateTooHigh)),
            (100, 1, 1_000, None),
            (100, 0, 1_000, Some(Unfit::ShortTooShort)),
            (100, 100, 3_600_000, None),
            (100, 100, 3_600_001, Some(Unfit::LongTooLong)),
            // the inequality met exactly, and missed
            (0, 100, 104, None),
            (0, 100, 103, Some(Unfit::TooClose)),
            (0, 101, 104, Some(Unfit::TooClose)),
            (10_000, 97, 103, None),
            (10_000, 97, 102, Some(Unfit::TooClose)),
            (10_000, 98, 103, Some(Unfit::TooClose)),
            (0, 1, 0, Some(Unfit::TooClose)),
            // the first that fails is named
            (10_001, 0, 3_600_001, Some(Unfit::RateTooHigh)),
            (10_000, 0, 3_600_001, Some(Unfit::ShortTooShort)),
            (10_000, MAX, 3_600_001, Some(Unfit::LongTooLong)),
            (10_000, MAX, 3_600_000, Some(Unfit::TooClose)),
            (MAX, MAX, MAX, Some(Unfit::RateTooHigh)),
            (0, MAX, MAX, Some(Unfit::LongTooLong)),
            (0, MAX, 0, Some(Unfit::TooClose)),
        ];
        for (rate, short, long, verdict) in &table {
            assert_eq!(rt; Terms::new(*rate, *short, *long).err(), *verdict);
        }
    }
}
