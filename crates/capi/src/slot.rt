ghost use Rattle.std.specs.Prelude.{◌≡◌, true, Option, Some, None, is_some};
ghost use Rattle.std.specs.contracts.impls.GlobalAllocator.TheImpl.{ghosts};
ghost use Rattle.capi.specs.declared.content.Machine.{Machine};
ghost use Rattle.capi.specs.contracts.content.Machine as machine;
ghost use Rattle.capi.specs.Owned.{owns_if_any};

use crate::content::Machine;
use crate::loose::Loose;
use std::alloc::Global;
use std::marker::Model;
use std::ptr;

/// A pointer that C holds: to a machine on the heap, or to nothing.
// The pointer is to bytes, since C can't be handed one to a type that holds a `Vec`.
#[repr(C)]
#[derive(Drop)]
pub struct Slot {
    at: *mut u8,
    heap: Global,
    pub ghost value: { Option Machine },
}

impl Model for Slot {
    ghost also_owns = { λ s. owns_if_any (ghosts.dealloc_token s.heap) machine.the_row s.at s.value };
}

impl Slot {
    /// To nothing.
    pub fn none(heap: Global) -> Slot
        ensures { result.value ≡ None }
    {
        Slot {
            at: ptr::null_mut(),
            heap,
        }
    }

    /// To what the box has.
    pub fn shut(loose: Loose<Machine, Global>) -> Slot
        ensures { result.value ≡ Some loose.value }
    {
        let Loose { at, alloc } = loose;
        Slot {
            at: at as *mut u8,
            heap: alloc,
        }
    }

    /// The box again, where there is one.
    pub fn unshut(self) -> Loose<Machine, Global>
        requires { is_some self.value ≡ true }
        ensures { Some result.value ≡ self.value }
    {
        let Slot { at, heap } = self;
        Loose {
            at: at as *mut Machine,
            alloc: heap,
        }
    }
}
