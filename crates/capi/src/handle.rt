ghost use Rattle.std.specs.Prelude.{◌≡◌, ◌≢◌, is_some, length, MatchOption};

use crate::content::Machine;
use crate::loose::Loose;
use crate::misuse::Misuse;
use crate::reply::Answer;
use crate::run::Run;
use crate::slot::Slot;
use borrowing::setting::Setting;
use machine::input::{Call, Input};
use message::kind::Kind;
use part::place::Place;
use part::who::Who;
use std::alloc::Global;
use std::mem;

/// What C has of a keeper or a tablet. All zero bytes, it holds nothing.
#[repr(C)]
#[derive(Drop)]
pub struct Handle {
    pub slot: Slot,
    pub is_open: bool,
    ghost told: { is_some slot.value ≡ «is_open» },
}

// The bytes of a part, where they are as many.
fn whole_part(bytes: &[u8]) -> Option<&[u8; 1024]>
    ensures { MatchOption result (length bytes.now ≢ 1024) (λ v. (v.now ≡ bytes.now) × (length bytes.now ≡ 1024)) }
{
    if bytes.len() != 1024 {
        return None;
    }
    bytes.first_chunk()
}

impl Handle {
    ghost use Rattle.std.specs.Prelude.{Some, None};
    ghost use Rattle.machine.specs.Inputs.{Came, input_of};
    ghost use Rattle.capi.specs.Handles.{held, kept_after};
    ghost use Rattle.capi.specs.Opening.{KeeperOpens, TabletOpens};
    ghost use Rattle.capi.specs.Asked.{asked, written, named, forgetting};
    ghost use Rattle.capi.specs.Hearing.{KeeperRaises, KeeperReceives, Steps, Shows};

    // It holds nothing.
    fn none(heap: Global) -> Handle
        ensures { held result ≡ None }
    {
        Handle {
            slot: Slot::none(heap),
            is_open: false,
        }
    }

    /// Takes what it holds, if anything.
    pub fn take(&mut self, heap: Global) -> Option<Box<Machine>>
        ensures gave { MatchOption result (held self.old ≡ None) (λ b. held self.old ≡ Some b.value) }
        ensures left { held self.new ≡ None }
    {
        let Handle { slot, is_open } = mem::replace(self, Handle::none(heap));
        if !is_open {
            return None;
        }
        Some(slot.unshut().into_box())
    }

    // Holds this from now on.
    fn put(&mut self, whole: Box<Machine>)
        ensures { held self.new ≡ Some whole.value }
    {
        *self = Handle {
            slot: Slot::shut(Loose::of(whole)),
            is_open: true,
        };
    }

    // Holds this again, but where there was no memory for what came of a call: then what it has in memory is ahead of its journal.
    fn put_back(&mut self, whole: Box<Machine>, outcome: Result<Answer, Misuse>)
        requires { held self.old ≡ None }
        ensures { held self.new ≡ kept_after outcome whole.value }
    {
        match outcome {
            Err(Misuse::NoMemory) => {}
            Ok(_) | Err(Misuse::Handle | Misuse::Argument | Misuse::NoJournal) => self.put(whole),
        }
    }

    /// Holds a keeper from the bytes of its journal: how many of them are whole records.
    pub fn keeper_open(&mut self, heap: Global, long: u64, journal: &[u8]) -> Result<usize, Misuse>
        ensures { KeeperOpens (held self.old) (held self.new) long journal.now result }
    {
        if self.is_open {
            return Err(Misuse::Handle);
        }
        let (run, whole) = Run::open(heap, long, journal)?;
        let Ok(machine) = Box::new(heap, Machine::Keeper(run)) else {
            return Err(Misuse::NoMemory);
        };
        self.put(machine);
        Ok(whole)
    }

    /// The keeper comes up: the number of the answer.
    pub fn come_up(&mut self, heap: Global, clock: u64) -> Result<u8, Misuse>
        ensures { KeeperRaises clock (held self.old) (held self.new) result }
    {
        let mut machine = self.take(heap).ok_or(Misuse::Handle)?;
        let result = machine.come_up(clock);
        self.put(machine);
        result
    }

    /// A message comes to the keeper.
    pub fn keeper_receive(
        &mut self,
        heap: Global,
        clock: u64,
        message: &[u8],
        filed: &mut [u8],
        sent: &mut [u8],
    ) -> Result<Answer, Misuse>
        ensures { KeeperReceives clock message.now (held self.old) (held self.new) result filed.old filed.new sent.old sent.new }
    {
        if filed.len() < 1032 || sent.len() < 1033 {
            return Err(Misuse::Argument);
        }
        let mut machine = self.take(heap).ok_or(Misuse::Handle)?;
        let result = machine.keeper_receive(clock, message, filed, sent);
        self.put_back(machine, result);
        result
    }

    /// Holds a tablet that comes up from the bytes of its journal: how many of them are whole records.
    pub fn tablet_open(
        &mut self,
        heap: Global,
        who: u8,
        short: u64,
        journal: &[u8],
    ) -> Result<usize, Misuse>
        ensures { TabletOpens (held self.old) (held self.new) who short journal.now result }
    {
        if self.is_open {
            return Err(Misuse::Handle);
        }
        let who = Who::new(who).ok_or(Misuse::Argument)?;
        let (mut run, whole) = Run::open(heap, Setting { who, short }, journal)?;
        let _ = run.wake(0);
        let Ok(machine) = Box::new(heap, Machine::Tablet(run)) else {
            return Err(Misuse::NoMemory);
        };
        self.put(machine);
        Ok(whole)
    }

    // Something comes to the tablet, but a call to show.
    fn tablet_step(
        &mut self,
        heap: Global,
        clock: u64,
        input: &Input<'_>,
        filed: &mut [u8],
        sent: &mut [u8],
    ) -> Result<Answer, Misuse>
        ensures { Steps clock (Some (input_of input.now)) (held self.old) (held self.new) result filed.old filed.new sent.old sent.new }
    {
        if filed.len() < 1032 || sent.len() < 1033 {
            return Err(Misuse::Argument);
        }
        let mut machine = self.take(heap).ok_or(Misuse::Handle)?;
        let result = machine.tablet_step(clock, input, filed, sent);
        self.put_back(machine, result);
        result
    }

    /// The tablet asks for a part, by the byte of the kind.
    pub fn ask(
        &mut self,
        heap: Global,
        clock: u64,
        file: u8,
        part: u8,
        kind: u8,
        filed: &mut [u8],
        sent: &mut [u8],
    ) -> Result<Answer, Misuse>
        ensures { Steps clock (asked file part kind) (held self.old) (held self.new) result filed.old filed.new sent.old sent.new }
    {
        let place = Place::new(file, part).ok_or(Misuse::Argument)?;
        let kind = match kind {
            0 => Kind::Reading,
            1 => Kind::Writing,
            2..=255 => return Err(Misuse::Argument),
        };
        let input = Input::Called(Call::Ask { place, kind });
        self.tablet_step(heap, clock, &input, filed, sent)
    }

    /// The tablet writes a part, with these bytes.
    pub fn write(
        &mut self,
        heap: Global,
        clock: u64,
        file: u8,
        part: u8,
        bytes: &[u8],
        filed: &mut [u8],
        sent: &mut [u8],
    ) -> Result<Answer, Misuse>
        ensures { Steps clock (written file part bytes.now) (held self.old) (held self.new) result filed.old filed.new sent.old sent.new }
    {
        let place = Place::new(file, part).ok_or(Misuse::Argument)?;
        let part = whole_part(bytes).ok_or(Misuse::Argument)?;
        let input = Input::Called(Call::Write { place, part });
        self.tablet_step(heap, clock, &input, filed, sent)
    }

    /// The tablet lets go of its copy of a part.
    pub fn forget(
        &mut self,
        heap: Global,
        file: u8,
        part: u8,
        filed: &mut [u8],
        sent: &mut [u8],
    ) -> Result<Answer, Misuse>
        ensures { Steps 0 (forgetting file part) (held self.old) (held self.new) result filed.old filed.new sent.old sent.new }
    {
        let place = Place::new(file, part).ok_or(Misuse::Argument)?;
        let input = Input::Called(Call::Forget(place));
        self.tablet_step(heap, 0, &input, filed, sent)
    }

    /// A message comes to the tablet.
    pub fn tablet_receive(
        &mut self,
        heap: Global,
        message: &[u8],
        filed: &mut [u8],
        sent: &mut [u8],
    ) -> Result<Answer, Misuse>
        ensures { Steps 0 (Some (Came message.now)) (held self.old) (held self.new) result filed.old filed.new sent.old sent.new }
    {
        self.tablet_step(heap, 0, &Input::Came(message), filed, sent)
    }

    /// The tablet shows the part that is named, if one is.
    pub fn show(
        &mut self,
        heap: Global,
        clock: u64,
        file: u8,
        part: u8,
        filed: &mut [u8],
        copy: &mut [u8],
    ) -> Result<Answer, Misuse>
        ensures { Shows clock (named file part) (held self.old) (held self.new) result filed.old filed.new copy.old copy.new }
    {
        let place = Place::new(file, part).ok_or(Misuse::Argument)?;
        if filed.len() < 1032 || copy.len() < 1024 {
            return Err(Misuse::Argument);
        }
        let mut machine = self.take(heap).ok_or(Misuse::Handle)?;
        let result = machine.show(clock, place, filed, copy);
        self.put_back(machine, result);
        result
    }
}
