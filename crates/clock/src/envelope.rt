// Whether a clock keeps within its error against all its earlier readings, by two of them.
ghost use Rattle.std.specs.Prelude.{◌≡◌, ◌*◌, ◌^◌, ◌<◌};
ghost use Rattle.clock.specs.Envelopes.{admits_one, ahead_by, ahead_of, behind_by, extend_one, first_one};

use crate::terms::Terms;

/// A true time in milliseconds, and what a clock showed then.
#[derive(Clone, Copy, Debug, PartialEq, Eq)]
pub struct Point {
    pub time: u64,
    pub shown: u64,
}

/// The reading at which a clock was furthest ahead, and the one at which it was furthest behind.
#[derive(Clone, Copy, Debug, PartialEq, Eq)]
pub struct Envelope {
    ahead: Point,
    behind: Point,
}

impl Envelope {
    /// The envelope of a first reading.
    pub fn first(p: Point) -> Envelope
        ensures { result ≡ first_one p }
    {
        Envelope {
            ahead: p,
            behind: p,
        }
    }

    /// Whether a clock that shows this next has kept within its error since every earlier reading.
    pub fn admits(&self, terms: &Terms, p: Point) -> bool
        ensures { result ≡ admits_one terms.now.rate 1 self.now p }
    {
        ahead_by(terms, 1_000_000, p, self.ahead) && behind_by(terms, 1_000_000, p, self.behind)
    }

    /// The envelope with one reading more.
    pub fn extend(&self, terms: &Terms, p: Point) -> Envelope
        ensures { result ≡ extend_one terms.now.rate 1 self.now p }
    {
        Envelope {
            ahead: if ahead_by(terms, 0, p, self.ahead) {
                p
            } else {
                self.ahead
            },
            behind: if behind_by(terms, 0, p, self.behind) {
                p
            } else {
                self.behind
            },
        }
    }
}

/// Whether the clock is as far ahead of the slowest at `p` as at `q`, or less so by at most the slack,
/// in millionths of a millisecond.
fn ahead_by(terms: &Terms, slack: u64, p: Point, q: Point) -> bool
    ensures { result ≡ ahead_by terms.now.rate 1 slack p q }
{
    ahead_of(1_000_000 - terms.rate, slack, p, q)
}

/// The same of how far it is behind the fastest: at `q`, then, it is ahead of that.
// The two readings stay parameters, here and above: they are compared, and no value holds both.
// It and `ahead_by` stay two names of one rule: each says in a word what its caller asks.
fn behind_by(terms: &Terms, slack: u64, p: Point, q: Point) -> bool
    ensures { result ≡ behind_by terms.now.rate 1 slack p q }
{
    ahead_of(1_000_000 + terms.rate, slack, q, p)
}

/// The same of a clock of this speed, in millionths of the true time's.
/// Both sides are sums, so that nothing goes below zero.
fn ahead_of(speed: u64, slack: u64, p: Point, q: Point) -> bool
    requires { speed < 2 ^ 32 }
    ensures { result ≡ ahead_of speed 1 slack p q }
{
    times(p.time, speed) + times(q.shown, 1_000_000)
        <= times(q.time, speed) + times(p.shown, 1_000_000) + u128::from(slack)
}

/// A reading times a small number, with room left for sums.
fn times(reading: u64, by: u64) -> u128
    requires { by < 2 ^ 32 }
    ensures { result ≡ reading * by }
{
    u128::from(reading) * u128::from(by)
}
