ghost use Rattle.std.specs.Prelude.{◌≡◌, [], IfOk, OnOk};
ghost use Rattle.world.specs.World.{tick};
ghost use Rattle.clock.specs.Clocks.{moment, passing};
ghost use Rattle.site.specs.Worlds.{event_of, Plays, Ticks};
ghost use Rattle.site.specs.Led.{Led, Onward};

use crate::event::{Event, Node};
use crate::fault::Fault;
use crate::seen::Seen;
use crate::site::Site;
use clock::clocks::NoPass;
use clock::terms::Terms;
use std::alloc::Global;

impl Site {
    // An event happens.
    fn happen(&mut self, event: &Event) -> Result<Seen, Fault>
        ensures { IfOk result (Plays self.old self.new (event_of event.now)) }
    {
        match event {
            Event::Call {
                who,
                place,
                call,
                bytes,
                torn,
            } => match *torn {
                None => self.call(*who, *place, *call, bytes),
                Some(left) => self.call_torn(*who, *place, *call, bytes, left),
            },
            Event::Deliver {
                message,
                size,
                to,
                torn,
            } => match (*to, *torn) {
                (Node::Keeper, None) => self.deliver_to_keeper(*message, *size),
                (Node::Keeper, Some(left)) => self.tear_keeper(*message, *size, left),
                (Node::Borrower(who), None) => self.deliver_to_borrower(*message, *size, who),
                (Node::Borrower(who), Some(left)) => self.tear_borrower(*message, *size, who, left),
            },
            Event::Stop(node) => Ok(self.stop(*node)),
            Event::Up(node) => self.come_up(*node),
        }
    }

    /// Lets an event happen: a step of the world, and of the run that led to it.
    pub fn play(&mut self, event: &Event) -> Result<Seen, Fault>
        ensures plays { IfOk result (Plays self.old self.new (event_of event.now)) }
        ensures onward { IfOk result (λ _. Onward self.old self.new (event_of event.now)) }
    {
        let seen = self.happen(event)?;
        Ok(seen)
    }

    /// Lets time pass, as far as every clock keeps within its error.
    pub fn tick(&mut self, time: u64, by: &[u64; 5]) -> Result<(), NoPass>
        ensures ticks { Ticks self.old self.new time by.now result }
        ensures onward { OnOk result (Onward self.old self.new (tick (passing time by.now))) }
    {
        self.clocks.pass(time, by)
    }
}
