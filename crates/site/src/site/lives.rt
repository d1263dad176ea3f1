ghost use Rattle.std.specs.Prelude.{◌≡◌, IfOk};
ghost use Rattle.site.specs.Worlds.{node_of, world_of, Plays};
ghost use Rattle.world.specs.World.{stop, up, is_up};

use crate::event::Node;
use crate::fault::Fault;
use crate::seen::{Answer, Seen};
use crate::site::Site;
use message::refusal::Refusal;

impl Site {
    // Whether somebody is up.
    fn is_up(&self, node: Node) -> bool
        ensures { result ≡ is_up (node_of node) (world_of self.now) }
    {
        match node {
            Node::Keeper => self.keeper.is_up(),
            Node::Borrower(who) => self.borrowers.is_up(who),
        }
    }

    /// Somebody stops; who is down already is refused by 1.
    pub(crate) fn stop(&mut self, node: Node) -> Seen
        ensures { Plays self.old self.new (stop (node_of node)) result }
    {
        if !self.is_up(node) {
            return Seen::only(Answer::Given(Err(Refusal::Malformed)));
        }
        match node {
            Node::Keeper => self.keeper.stop(),
            Node::Borrower(who) => self.borrowers.stop(who),
        }
        Seen::only(Answer::Given(Ok(())))
    }

    /// Somebody comes up from its journal; who is up already is refused by 1, and a keeper whose grace period would pass 64 bits by 9.
    pub(crate) fn come_up(&mut self, node: Node) -> Result<Seen, Fault>
        ensures { IfOk result (λ s. Plays self.old self.new (up (node_of node)) s) }
    {
        if self.is_up(node) {
            return Ok(Seen::only(Answer::Given(Err(Refusal::Malformed))));
        }
        let answer = match node {
            Node::Keeper => self.keeper.come_up(self.heap, self.clocks.keeper())?,
            Node::Borrower(who) => {
                self.borrowers.come_up(self.heap, who)?;
                Ok(())
            }
        };
        Ok(Seen::only(Answer::Given(answer)))
    }
}
