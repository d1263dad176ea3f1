ghost use Rattle.std.specs.Prelude.{IfOk, Some, None};
ghost use Rattle.world.specs.World.{deliver, keeper, borrower};
ghost use Rattle.site.specs.Nodes.{borrower_number};
ghost use Rattle.site.specs.Worlds.{Plays};

use crate::event::Borrower;
use crate::fault::Fault;
use crate::seen::{Answer, Seen, stopped};
use crate::site::Site;

impl Site {
    /// The first bytes of a message arrive at the keeper.
    pub(crate) fn deliver_to_keeper(&mut self, message: usize, size: usize) -> Result<Seen, Fault>
        ensures { IfOk result (Plays self.old self.new (deliver message size keeper None)) }
    {
        let clock = self.clocks.keeper();
        let bytes = self.network.first_bytes(message, size);
        let Some(reply) = self.keeper.serve(clock, bytes)? else {
            return Ok(Seen::only(Answer::Down));
        };
        self.network.send_from_keeper(&self.keeper, reply.sends)?;
        Ok(Seen::only(Answer::Given(reply.answer)))
    }

    /// The same, and the keeper stops in the midst of it: of its record only so many first bytes are left.
    pub(crate) fn tear_keeper(
        &mut self,
        message: usize,
        size: usize,
        left: u64,
    ) -> Result<Seen, Fault>
        ensures { IfOk result (Plays self.old self.new (deliver message size keeper (Some left))) }
    {
        let clock = self.clocks.keeper();
        let bytes = self.network.first_bytes(message, size);
        let was_up = self.keeper.serve_torn(clock, bytes, left)?;
        Ok(Seen::only(stopped(was_up)))
    }

    /// The first bytes of a message arrive at a borrower.
    pub(crate) fn deliver_to_borrower(
        &mut self,
        message: usize,
        size: usize,
        who: Borrower,
    ) -> Result<Seen, Fault>
        ensures { IfOk result (Plays self.old self.new (deliver message size (borrower (borrower_number who)) None)) }
    {
        let bytes = self.network.first_bytes(message, size);
        let Some(outcome) = self.borrowers.hear(who, bytes)? else {
            return Ok(Seen::only(Answer::Down));
        };
        self.network.send_from_borrower(outcome.send, &[0; 1024])?;
        Ok(Seen {
            told: outcome.told,
            answer: Answer::Given(outcome.answer),
        })
    }

    /// The same, and it stops in the midst of it: of its record only so many first bytes are left.
    pub(crate) fn tear_borrower(
        &mut self,
        message: usize,
        size: usize,
        who: Borrower,
        left: u64,
    ) -> Result<Seen, Fault>
        ensures { IfOk result (Plays self.old self.new (deliver message size (borrower (borrower_number who)) (Some left))) }
    {
        let bytes = self.network.first_bytes(message, size);
        let was_up = self.borrowers.hear_torn(who, bytes, left)?;
        Ok(Seen::only(stopped(was_up)))
    }
}
