ghost use Rattle.std.specs.Prelude.{IfOk, Some, None};
ghost use Rattle.world.specs.World as event;
ghost use Rattle.site.specs.Nodes.{borrower_number};
ghost use Rattle.site.specs.Worlds.{Plays};

use crate::event::Borrower;
use crate::fault::Fault;
use crate::seen::{Answer, Seen, stopped};
use crate::site::Site;
use borrower::outcome::Call;
use part::place::Place;

impl Site {
    /// A borrower is called; the bytes are those that a write writes.
    pub(crate) fn call(
        &mut self,
        who: Borrower,
        place: Place,
        call: Call,
        bytes: &[u8; 1024],
    ) -> Result<Seen, Fault>
        ensures { IfOk result (Plays self.old self.new (event.call (borrower_number who) place.at call bytes.now None)) }
    {
        let clock = self.reading(who);
        let Some(outcome) = self.borrowers.call(who, clock, place, call)? else {
            return Ok(Seen::only(Answer::Down));
        };
        self.network.send_from_borrower(outcome.send, bytes)?;
        Ok(Seen::only(Answer::Given(outcome.answer)))
    }

    /// A borrower is called and stops in the midst of it: of its record only so many first bytes are left.
    pub(crate) fn call_torn(
        &mut self,
        who: Borrower,
        place: Place,
        call: Call,
        bytes: &[u8; 1024],
        left: u64,
    ) -> Result<Seen, Fault>
        ensures { IfOk result (Plays self.old self.new (event.call (borrower_number who) place.at call bytes.now (Some left))) }
    {
        let clock = self.reading(who);
        let was_up = self.borrowers.call_torn(who, clock, place, call, left)?;
        Ok(Seen::only(stopped(was_up)))
    }
}
