ghost use Rattle.std.specs.Prelude.{Some};
ghost use Rattle.machine.specs.Inputs.{Came};
ghost use Rattle.capi.specs.Handles.{held};
ghost use Rattle.capi.specs.Asked.{named, asked, written, forgetting};
ghost use Rattle.capi.specs.Opening.{TabletOpens};
ghost use Rattle.capi.specs.Hearing.{Steps, Shows};
ghost use Rattle.capi.specs.Exports.{Opened, Replied};

use crate::handle::Handle;
use crate::reply::Reply;
use crate::tell::{tell_answer, tell_size};
use std::alloc::Global;

/// An empty handle holds a tablet of this borrower from the bytes of its journal, of which `whole` are whole records.
#[unsafe(no_mangle)]
pub extern "C" fn zilunthar_tablet_open(
    heap: Global,
    tablet: &mut Handle,
    who: u8,
    short: u64,
    journal: &[u8],
    whole: &mut usize,
) -> u8
    ensures { Opened (TabletOpens (held tablet.old) (held tablet.new) who short journal.now) whole.old whole.new result }
{
    tell_size(tablet.tablet_open(heap, who, short, journal), whole)
}

/// A tablet asks for a part, to read it by the kind 0, to write it by 1.
#[unsafe(no_mangle)]
pub extern "C" fn zilunthar_tablet_ask(
    heap: Global,
    tablet: &mut Handle,
    clock: u64,
    file: u8,
    part: u8,
    kind: u8,
    filed: &mut [u8],
    sent: &mut [u8],
    reply: &mut Reply,
) -> u8
    ensures { Replied (λ r. Steps clock (asked file part kind) (held tablet.old) (held tablet.new) r filed.old filed.new sent.old sent.new) reply.old reply.new result }
{
    tell_answer(
        tablet.ask(heap, clock, file, part, kind, filed, sent),
        reply,
    )
}

/// A tablet shows its copy of a part, where it may.
#[unsafe(no_mangle)]
pub extern "C" fn zilunthar_tablet_show(
    heap: Global,
    tablet: &mut Handle,
    clock: u64,
    file: u8,
    part: u8,
    filed: &mut [u8],
    copy: &mut [u8],
    reply: &mut Reply,
) -> u8
    ensures { Replied (λ r. Shows clock (named file part) (held tablet.old) (held tablet.new) r filed.old filed.new copy.old copy.new) reply.old reply.new result }
{
    tell_answer(tablet.show(heap, clock, file, part, filed, copy), reply)
}

/// A tablet writes a part, with these 1,024 bytes.
#[unsafe(no_mangle)]
pub extern "C" fn zilunthar_tablet_write(
    heap: Global,
    tablet: &mut Handle,
    clock: u64,
    file: u8,
    part: u8,
    bytes: &[u8],
    filed: &mut [u8],
    sent: &mut [u8],
    reply: &mut Reply,
) -> u8
    ensures { Replied (λ r. Steps clock (written file part bytes.now) (held tablet.old) (held tablet.new) r filed.old filed.new sent.old sent.new) reply.old reply.new result }
{
    tell_answer(
        tablet.write(heap, clock, file, part, bytes, filed, sent),
        reply,
    )
}

/// A tablet lets go of its copy of a part, if it has one, whatever its clock reads.
#[unsafe(no_mangle)]
pub extern "C" fn zilunthar_tablet_forget(
    heap: Global,
    tablet: &mut Handle,
    file: u8,
    part: u8,
    filed: &mut [u8],
    sent: &mut [u8],
    reply: &mut Reply,
) -> u8
    ensures { Replied (λ r. Steps 0 (forgetting file part) (held tablet.old) (held tablet.new) r filed.old filed.new sent.old sent.new) reply.old reply.new result }
{
    tell_answer(tablet.forget(heap, file, part, filed, sent), reply)
}

/// A message comes to a tablet.
#[unsafe(no_mangle)]
pub extern "C" fn zilunthar_tablet_receive(
    heap: Global,
    tablet: &mut Handle,
    message: &[u8],
    filed: &mut [u8],
    sent: &mut [u8],
    reply: &mut Reply,
) -> u8
    ensures { Replied (λ r. Steps 0 (Some (Came message.now)) (held tablet.old) (held tablet.new) r filed.old filed.new sent.old sent.new) reply.old reply.new result }
{
    tell_answer(tablet.tablet_receive(heap, message, filed, sent), reply)
}
