ghost use Rattle.capi.specs.Handles.{held};
ghost use Rattle.capi.specs.Opening.{KeeperOpens};
ghost use Rattle.capi.specs.Hearing.{KeeperRaises, KeeperReceives};
ghost use Rattle.capi.specs.Exports.{Opened, Numbered, Replied};

use crate::handle::Handle;
use crate::reply::Reply;
use crate::tell::{tell_answer, tell_number, tell_size};
use std::alloc::Global;

/// An empty handle holds a keeper from the bytes of its journal, of which `whole` are whole records.
#[unsafe(no_mangle)]
pub extern "C" fn zilunthar_keeper_open(
    heap: Global,
    keeper: &mut Handle,
    long: u64,
    journal: &[u8],
    whole: &mut usize,
) -> u8
    ensures { Opened (KeeperOpens (held keeper.old) (held keeper.new) long journal.now) whole.old whole.new result }
{
    tell_size(keeper.keeper_open(heap, long, journal), whole)
}

/// A keeper comes up at this reading of its clock.
#[unsafe(no_mangle)]
pub extern "C" fn zilunthar_keeper_come_up(heap: Global, keeper: &mut Handle, clock: u64) -> u8
    ensures { Numbered (KeeperRaises clock (held keeper.old) (held keeper.new)) result }
{
    tell_number(keeper.come_up(heap, clock))
}

/// A message comes to a keeper at this reading of its clock.
#[unsafe(no_mangle)]
pub extern "C" fn zilunthar_keeper_receive(
    heap: Global,
    keeper: &mut Handle,
    clock: u64,
    message: &[u8],
    filed: &mut [u8],
    sent: &mut [u8],
    reply: &mut Reply,
) -> u8
    ensures { Replied (λ r. KeeperReceives clock message.now (held keeper.old) (held keeper.new) r filed.old filed.new sent.old sent.new) reply.old reply.new result }
{
    tell_answer(
        keeper.keeper_receive(heap, clock, message, filed, sent),
        reply,
    )
}
