// The true time and five clocks, which go on only as far as they keep within their error.
ghost use Rattle.std.specs.Prelude.{◌≡◌, suc, ◌<◌, ◌≤◌, [], MatchOption, Some};
ghost use Rattle.clock.specs.Clocks.{Outcome, Stands, moment, no_pass_text, present};

use crate::hand::Hand;
use crate::terms::Terms;
use std::error::Error;
use std::fmt;

/// The true time in milliseconds and the clocks, the keeper's first and then those of borrowers 0 to 3.
#[derive(Drop)]
pub struct Clocks {
    time: u64,
    hands: [Hand; 5],
    terms: Terms,
}

/// Why time does not pass.
#[derive(Clone, Copy, Debug, PartialEq, Eq)]
pub enum NoPass {
    /// the true time would pass 64 bits
    TimeTooHigh,
    /// a reading would pass 64 bits
    ReadingTooHigh,
    /// a clock would leave its error against an earlier moment
    OffError,
}

impl fmt::Display for NoPass {
    ghost output = { λ why. Some (no_pass_text why) };

    fn fmt<W: fmt::Write>(&self, f: &mut fmt::Formatter<W>) -> fmt::Result {
        f.write_str(match self {
            NoPass::TimeTooHigh => "the true time would pass 64 bits",
            NoPass::ReadingTooHigh => "a reading would pass 64 bits",
            NoPass::OffError => "a clock would leave its error",
        })
    }
}

impl Error for NoPass {}

impl Clocks {
    /// The clocks at the true time 0.
    pub fn new(terms: Terms, hands: &[u64; 5]) -> Clocks
        ensures is { present result ≡ moment 0 hands.now }
        ensures terms { result.terms ≡ terms }
        ensures stands { Stands result [] }
    {
        Clocks {
            time: 0,
            hands: hands.map(Hand::first),
            terms,
        }
    }

    /// Lets so much true time pass while the clocks go on by so much, the keeper's first.
    /// An error changes nothing.
    pub fn pass(&mut self, time: u64, by: &[u64; 5]) -> Result<(), NoPass>
        ensures { Outcome time by.now self.old self.new result }
    {
        let time = self.time.checked_add(time).ok_or(NoPass::TimeTooHigh)?;
        let mut hands = self.hands;
        // The index stays: of what is written through `iter_mut().zip(by)` a proof knows nothing afterwards.
        for (i, by) in by.iter().enumerate() {
            hands[i] = hands[i].pass(&self.terms, time, *by)?;
        }
        self.time = time;
        self.hands = hands;
        Ok(())
    }

    /// What the keeper's clock shows.
    pub fn keeper(&self) -> u64
        ensures { result ≡ (present self.now).hand 0 }
    {
        self.hands[0].shown
    }

    /// What a borrower's clock shows; there are four.
    pub fn borrower(&self, i: u8) -> Option<u64>
        ensures { MatchOption result (4 ≤ i) (λ x. (i < 4) × (x ≡ (present self.now).hand (suc i))) }
    {
        self.hands.get(usize::from(i) + 1).map(|hand| hand.shown)
    }
}

#[cfg(test)]
mod tests {
    use super::*;
    use std::process::Abort;
    use std::test::Fail;

    const MAX: u64 = u64::MAX;

    // Whether all steps come out as the table says, of true time and of every clock.
    fn play(rt: &impl Abort, shown: u64, steps: &[(u64, u64, bool)]) -> Result<(), Fail> {
        let mut clocks = at(shown)?;
        for (time, by, passes) in steps {
            assert_eq!(rt; clocks.pass(*time, &[*by; 5]).is_ok(), *passes);
        }
        Ok(())
    }

    fn at(shown: u64) -> Result<Clocks, Fail> {
        Ok(Clocks::new(Terms::new(100, 100, 200)?, &[shown; 5]))
    }

    // At 100 parts in a million a clock counts 9,998 to 10,002 in ten seconds, and 19,997 to 20,003 in twenty.
    #[test]
    fn errors(rt: HostRuntime) -> Result<(), Fail> {
        let fast = [
            (10_000, 10_003, false),
            (10_000, 10_002, true),
            (0, 1, false),
            (10_000, 10_002, false),
            (10_000, 10_001, true),
        ];
        let slow = [
            (10_000, 9_997, false),
            (10_000, 9_998, true),
            (1, 0, false),
            (10_000, 9_998, false),
            (10_000, 9_999, true),
        ];
        play(&rt, 7, &fast)?;
        play(&rt, 7, &slow)
    }

    #[test]
    fn room(rt: HostRuntime) -> Result<(), Fail> {
        play(
            &rt,
            MAX - 5,
            &[(5, 6, false), (5, 5, true), (1, 1, false), (1, 0, true)],
        )?;
        play(&rt, 0, &[(MAX, MAX, true), (1, 0, false), (0, 0, true)])
    }

    #[test]
    fn readings(rt: HostRuntime) -> Result<(), Fail> {
        let mut clocks = at(7)?;
        assert_eq!(rt;
            clocks.pass(10_000, &[10_000, 10_000, 10_003, 10_000, 10_000]),
            Err(NoPass::OffError)
        );
        assert_eq!(rt; clocks.borrower(1), Some(7));
        assert_eq!(rt;
            clocks.pass(10_000, &[10_000, 10_001, 10_002, 9_999, 9_998]),
            Ok(())
        );
        assert_eq!(rt; clocks.keeper(), 10_007);
        assert_eq!(rt; clocks.borrower(0), Some(10_008));
        assert_eq!(rt; clocks.borrower(3), Some(10_005));
        assert_eq!(rt; clocks.borrower(4), None);
        assert_eq!(rt; clocks.terms.long, 200);
        Ok(())
    }
}
