// One clock: what it shows, and what is remembered of all that it showed.
ghost use Rattle.std.specs.Prelude.{◌≡◌};
ghost use Rattle.clock.specs.Hands.{HandOutcome, first_hand};

use crate::clocks::NoPass;
use crate::envelope::{Envelope, Point};
use crate::terms::Terms;

/// What a clock shows, with the envelope of its readings.
#[derive(Clone, Copy, Debug, PartialEq, Eq)]
pub struct Hand {
    pub shown: u64,
    envelope: Envelope,
}

impl Hand {
    /// A clock at the true time 0.
    pub fn first(shown: u64) -> Hand
        ensures { result ≡ first_hand shown }
    {
        Hand {
            shown,
            envelope: Envelope::first(Point { time: 0, shown }),
        }
    }

    /// The clock gone on by so much, at this true time.
    pub fn pass(&self, terms: &Terms, time: u64, by: u64) -> Result<Hand, NoPass>
        ensures { HandOutcome terms.now.rate time by self.now result }
    {
        let shown = self.shown.checked_add(by).ok_or(NoPass::ReadingTooHigh)?;
        let next = Point { time, shown };
        if !self.envelope.admits(terms, next) {
            return Err(NoPass::OffError);
        }
        Ok(Hand {
            shown,
            envelope: self.envelope.extend(terms, next),
        })
    }
}
