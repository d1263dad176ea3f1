ghost use Rattle.std.specs.Prelude.{◌≡◌, replicate, Some, IfOk, OnOk};
ghost use Rattle.site.specs.Nodes.{borrower_number};
ghost use Rattle.site.specs.Worlds.{world_of, event_of};
ghost use Rattle.site.specs.Led.{Reached};
ghost use Rattle.rehearse.specs.Played.{Started, SetTo, Ticked, EventPlayed, ShowPlayed, called_of, CallPlayed, index_of, target_of, size_of, TurnedAway, Delivered, Played};

use borrower::outcome::Call;
use clock::terms::Terms;
use message::refusal::Refusal;
use part::place::Place;
use script::step::{Act, Step};
use site::event::{Borrower, Event, Node};
use site::fault::Fault;
use site::seen::{Answer, Seen, Shown};
use site::site::Site;
use std::alloc::Global;

/// What is printed of a line, after the messages that were sent.
#[derive(Clone, Copy, Debug, PartialEq, Eq)]
pub enum Said {
    /// Nothing: the line is passed over.
    Nothing,
    /// That the rehearsal starts over.
    Anew,
    /// What a writer is told, and the answer.
    Seen(Seen),
    /// What is shown, beside what the keeper has.
    Shown { shown: Shown, kept: [u8; 1024] },
}

/// A rehearsal: its site, and whether a line was played that a `set` may not follow.
#[derive(Drop)]
pub struct Rehearsal {
    heap: Global,
    terms: Terms,
    pub site: Site,
    begun: bool,
}

// Only an answer: it is done, or refused.
fn given(answer: Result<(), Refusal>) -> Said
    ensures { result ≡ Said.Seen (record { told = None; answer = Answer.Given answer }) }
{
    Said::Seen(Seen::only(Answer::Given(answer)))
}

// So many bytes arrive, or all.
fn size(cut: Option<u64>) -> usize
    ensures { result ≡ size_of cut }
{
    match cut {
        Some(size) => size as usize,
        None => usize::MAX,
    }
}

impl Rehearsal {
    /// At first every clock shows 0.
    pub fn new(heap: Global, terms: Terms) -> Rehearsal
        ensures { Started terms (replicate 5 0) result }
    {
        Rehearsal {
            heap,
            terms,
            site: Site::new(heap, terms, &[0; 5]),
            begun: false,
        }
    }

    fn set(&mut self, keeper: u64, borrowers: [u64; 4]) -> Said
        ensures { SetTo self.old self.new keeper borrowers result }
    {
        if self.begun {
            return given(Err(Refusal::Malformed));
        }
        let [a, b, c, d] = borrowers;
        self.site = Site::new(self.heap, self.terms, &[keeper, a, b, c, d]);
        self.begun = true;
        given(Ok(()))
    }

    fn anew(&mut self) -> Said
        ensures { Started self.old.terms (replicate 5 0) self.new × (result ≡ Said.Anew) }
    {
        self.site = Site::new(self.heap, self.terms, &[0; 5]);
        self.begun = false;
        Said::Anew
    }

    fn tick(&mut self, time: u64, by: &[u64; 5]) -> Said
        ensures { Ticked self.old self.new time by.now result }
    {
        self.begun = true;
        given(self.site.tick(time, by).map_err(|_| Refusal::Malformed))
    }

    // An event happens.
    fn happen(&mut self, event: &Event) -> Result<Said, Fault>
        ensures { IfOk result (EventPlayed self.old self.new (event_of event.now)) }
    {
        self.begun = true;
        let seen = self.site.play(event)?;
        Ok(Said::Seen(seen))
    }

    // A borrower is to show a part.
    fn show(&mut self, who: Borrower, place: Place) -> Result<Said, Fault>
        ensures { IfOk result (ShowPlayed self.old self.new (borrower_number who) place.at) }
    {
        self.begun = true;
        let shown = self.site.show(who, place)?;
        let kept = self.site.kept(place)?;
        Ok(Said::Shown { shown, kept })
    }

    // A borrower is called.
    fn call(
        &mut self,
        who: Borrower,
        place: Place,
        act: Act,
        torn: Option<u64>,
    ) -> Result<Said, Fault>
        ensures { IfOk result (CallPlayed self.old self.new (borrower_number who) place.at act torn) }
    {
        if let (Act::Show, None) = (act, torn) {
            return self.show(who, place);
        }
        let (call, bytes) = called(act);
        self.happen(&Event::Call {
            who,
            place,
            call,
            bytes,
            torn,
        })
    }

    // The message of this number, counted from 0; a script counts from 1.
    fn find(&self, message: u64) -> Option<usize>
        ensures { result ≡ index_of (world_of self.now.site) message }
    {
        let index = usize::try_from(message).ok()?.checked_sub(1)?;
        (index < self.site.sent()).then_some(index)
    }

    // Where a message arrives: where the line says, or else where it is meant to.
    fn target(&self, message: usize, to: Option<Node>) -> Option<Node>
        ensures { result ≡ target_of (world_of self.now.site) message to }
    {
        match to {
            Some(node) => Some(node),
            None => self.site.receiver(message),
        }
    }

    // Nothing happens, and the line is refused by 1.
    fn turn_away(&mut self) -> Said
        ensures { TurnedAway self.old self.new result }
    {
        self.begun = true;
        given(Err(Refusal::Malformed))
    }

    // A message arrives; one that was never sent is refused.
    fn deliver(
        &mut self,
        message: u64,
        cut: Option<u64>,
        to: Option<Node>,
        torn: Option<u64>,
    ) -> Result<Said, Fault>
        ensures { IfOk result (Delivered self.old self.new message cut to torn) }
    {
        let Some(message) = self.find(message) else {
            return Ok(self.turn_away());
        };
        let Some(to) = self.target(message, to) else {
            return Ok(self.turn_away());
        };
        self.happen(&Event::Deliver {
            message,
            size: size(cut),
            to,
            torn,
        })
    }

    // Plays one line in a form.
    fn play_step(&mut self, step: &Step<Place>) -> Result<Said, Fault>
        ensures { IfOk result (Played self.old self.new (Some step.now)) }
    {
        match *step {
            Step::Blank => Ok(Said::Nothing),
            Step::Set { keeper, borrowers } => Ok(self.set(keeper, borrowers)),
            Step::Anew => Ok(self.anew()),
            Step::Tick { time, by } => Ok(self.tick(time, &by)),
            Step::Up(node) => self.happen(&Event::Up(node)),
            Step::Stop(node) => self.happen(&Event::Stop(node)),
            Step::Call {
                who,
                place,
                act,
                torn,
            } => self.call(who, place, act, torn),
            Step::Deliver {
                message,
                cut,
                to,
                torn,
            } => self.deliver(message, cut, to, torn),
        }
    }

    /// Plays one line; none is a line in no form. What is promised of every run is so of the site, if it was so before.
    pub fn play(&mut self, step: Option<Step<Place>>) -> Result<Said, Fault>
        ensures played { IfOk result (Played self.old self.new step) }
        ensures reached { OnOk result (Reached self.old.site → Reached self.new.site) }
    {
        let Some(step) = step else {
            return Ok(given(Err(Refusal::Malformed)));
        };
        self.play_step(&step)
    }
}

// The call that a line asks for, and the bytes of a write.
fn called(act: Act) -> (Call, [u8; 1024])
    ensures { result ≡ called_of act }
{
    match act {
        Act::Ask(kind) => (Call::Ask(kind), [0; 1024]),
        Act::Show => (Call::Show, [0; 1024]),
        Act::Write(bytes) => (Call::Write, bytes),
        Act::Forget => (Call::Forget, [0; 1024]),
    }
}
