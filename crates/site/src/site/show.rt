ghost use Rattle.std.specs.Prelude.{◌≡◌, IfOk, None, replicate};
ghost use Rattle.borrower.specs.declared.outcome.Call.TheVariants as what;
ghost use Rattle.world.specs.World as event;
ghost use Rattle.site.specs.Nodes.{borrower_number};
ghost use Rattle.site.specs.Worlds.{world_of};
ghost use Rattle.site.specs.Led.{Onward};
ghost use Rattle.site.specs.Shows.{Shows, Fresh, show_of};

use crate::event::{Borrower, Event};
use crate::fault::Fault;
use crate::seen::{Answer, Shown};
use crate::site::Site;
use borrower::outcome::Call;
use part::place::Place;

impl Site {
    /// The bytes that the keeper has of a part; while it is down, what its journal says.
    pub fn kept(&self, place: Place) -> Result<[u8; 1024], Fault>
        ensures { IfOk result (λ v. v ≡ (world_of self.now).keeper.parts place.at) }
    {
        self.keeper.part(place)
    }

    /// Shows a borrower's copy of a part, where it may be shown: then it is what the last write applied anywhere has left, whatever
    /// happened before, while the clocks have kept within their error.
    pub fn show(&mut self, who: Borrower, place: Place) -> Result<Shown, Fault>
        ensures shows { IfOk result (Shows (world_of self.old) (borrower_number who) place.at) }
        ensures fresh { IfOk result (Fresh self.old place.at) }
        ensures onward { IfOk result (λ _. Onward self.old self.new (show_of (borrower_number who) place.at)) }
        ensures clocks { IfOk result (λ _. self.new.clocks ≡ self.old.clocks) }
    {
        let seen = self.play(&Event::Call {
            who,
            place,
            call: Call::Show,
            bytes: [0; 1024],
            torn: None,
        })?;
        Ok(match seen.answer {
            Answer::Given(Ok(())) => Shown::Copy(*self.borrowers.copy(who, place)),
            Answer::Given(Err(refusal)) => Shown::Refused(refusal),
            Answer::Down | Answer::Stopped => Shown::Down,
        })
    }
}
