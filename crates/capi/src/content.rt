ghost use Rattle.std.specs.Prelude.{◌≡◌};
ghost use Rattle.message.specs.Directions.{for_keeper};
ghost use Rattle.message.specs.Reading.{read};
ghost use Rattle.keeping.specs.Keepers.{durable};
ghost use Rattle.machine.specs.Inputs.{input_of, call_of};
ghost use Rattle.capi.specs.Answers.{SizedFor, SizedCall, SizedInput};

use crate::misuse::Misuse;
use crate::reply::{Answer, number_of};
use crate::run::Run;
use borrowing::tablet::Tablet;
use keeping::keeper::Keeper;
use machine::input::{Call, Input};
use message::to_keeper::ToKeeper;
use part::place::Place;

/// What a handle holds.
// One enum for both stays: so there is one kind of handle, and a call of the wrong kind is refused.
#[derive(Drop)]
pub enum Machine {
    Keeper(Run<Keeper>),
    Tablet(Run<Tablet>),
}

// A part that is asked for has as many bytes as every part: so a loan of it fits the buffer of the host.
fn sized(keeper: &Keeper, message: &[u8])
    ensures { SizedFor (durable keeper.now).parts (for_keeper (read message.now)) }
{
    if let Some(ToKeeper::Ask { head, .. }) = ToKeeper::read(message) {
        let _part = keeper.part(head.place);
    }
}

// The bytes of a write are as many as a part's: so its message fits too.
fn sized_call(call: &Call<'_>)
    ensures { SizedCall (call_of call.now) }
{
    match call {
        Call::Write { part, .. } => {
            let _bytes: &[u8] = *part;
        }
        Call::Ask { .. } | Call::Show(_) | Call::Forget(_) => {}
    }
}

fn sized_input(input: &Input<'_>)
    ensures { SizedInput (input_of input.now) }
{
    match input {
        Input::Called(call) => sized_call(call),
        Input::Came(_) | Input::Reading => {}
    }
}

impl Machine {
    ghost use Rattle.std.specs.Prelude.{◌≤◌, length};
    ghost use Rattle.capi.specs.Machines.{KeeperRaised, KeeperDid, TabletDid, TabletShowed};

    /// A keeper comes up: the number of the answer.
    pub fn come_up(&mut self, clock: u64) -> Result<u8, Misuse>
        ensures { KeeperRaised clock self.old self.new result }
    {
        let Machine::Keeper(run) = self else {
            return Err(Misuse::Handle);
        };
        Ok(number_of(run.wake(clock)))
    }

    /// A message comes to a keeper.
    pub fn keeper_receive(
        &mut self,
        clock: u64,
        message: &[u8],
        filed: &mut [u8],
        sent: &mut [u8],
    ) -> Result<Answer, Misuse>
        requires { (1032 ≤ length filed.old) × (1033 ≤ length sent.old) }
        ensures { KeeperDid clock message.now self.old self.new result filed.old filed.new sent.old sent.new }
    {
        let Machine::Keeper(run) = self else {
            return Err(Misuse::Handle);
        };
        sized(&run.machine, message);
        run.step(clock, &Input::Came(message), filed, sent)
    }

    /// Something comes to a tablet, but a call to show.
    pub fn tablet_step(
        &mut self,
        clock: u64,
        input: &Input<'_>,
        filed: &mut [u8],
        sent: &mut [u8],
    ) -> Result<Answer, Misuse>
        requires { (1032 ≤ length filed.old) × (1033 ≤ length sent.old) }
        ensures { TabletDid clock (input_of input.now) self.old self.new result filed.old filed.new sent.old sent.new }
    {
        let Machine::Tablet(run) = self else {
            return Err(Misuse::Handle);
        };
        sized_input(input);
        run.step(clock, input, filed, sent)
    }

    /// A call to show.
    pub fn show(
        &mut self,
        clock: u64,
        place: Place,
        filed: &mut [u8],
        copy: &mut [u8],
    ) -> Result<Answer, Misuse>
        requires { (1032 ≤ length filed.old) × (1024 ≤ length copy.old) }
        ensures { TabletShowed clock place.at self.old self.new result filed.old filed.new copy.old copy.new }
    {
        let Machine::Tablet(run) = self else {
            return Err(Misuse::Handle);
        };
        let answer = run.step(clock, &Input::Called(Call::Show(place)), filed, &mut [])?;
        if answer.number == 0 {
            copy[0..1024].copy_from_slice(run.machine.copy(place));
        }
        Ok(answer)
    }
}
