ghost use Rattle.std.specs.Prelude.{◌≡◌};
ghost use Rattle.borrowing.specs.Rules.{asks, writes};
ghost use Rattle.borrowing.specs.Sends.{Sends};

use crate::hold::{Asked, Timing};
use machine::effects::Effects;
use message::kind::Kind;
use message::refusal::Refusal;
use message::to_keeper::ToKeeper;
use part::files::PART_SIZE;
use part::head::Head;
use part::place::Place;
use part::who::Who;

/// Who a borrower is, and for how long a copy is valid from its ask on.
#[derive(Clone, Copy, Debug, PartialEq, Eq)]
pub struct Setting {
    pub who: Who,
    pub short: u64,
}

impl Setting {
    /// What tells whether copies are valid at this clock reading.
    pub fn timing(self, clock: u64) -> Timing
        ensures { result ≡ record { clock = clock; short = self.short } }
    {
        let short = self.short;
        Timing { clock, short }
    }

    /// An ask is sent, or refused.
    pub fn send_ask(
        self,
        place: Place,
        kind: Kind,
        asked: Result<Asked, Refusal>,
        out: &mut Effects,
    ) -> Result<(), Refusal>
        ensures { Sends (asks self.who.id place.at kind asked) out.old out.new result }
    {
        let Asked { number, written } = asked?;
        let who = self.who;
        let head = Head { who, place, number };
        out.to_keeper(&ToKeeper::Ask {
            head,
            kind,
            written,
        });
        Ok(())
    }

    /// A write is sent, or refused.
    pub fn send_write(
        self,
        place: Place,
        part: &[u8; PART_SIZE],
        written: Result<u32, Refusal>,
        out: &mut Effects,
    ) -> Result<(), Refusal>
        ensures { Sends (writes self.who.id place.at part.now written) out.old out.new result }
    {
        let number = written?;
        let who = self.who;
        let head = Head { who, place, number };
        out.to_keeper(&ToKeeper::Write { head, part });
        Ok(())
    }
}
