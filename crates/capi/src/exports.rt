// What C calls. Each does little but call what is in the modules beside, and say what came of it.
ghost use Rattle.std.specs.Prelude.{◌≡◌, None};
ghost use Rattle.clock.specs.Terms.{verdict};
ghost use Rattle.capi.specs.Handles.{held};
ghost use Rattle.capi.specs.Numbers.{fit_number};

use crate::handle::Handle;
use clock::terms::{Terms, Unfit};
use std::alloc::Global;

pub mod keeper;
pub mod tablet;

/// Whether terms fit together: 0, or the number of the first condition that fails.
#[unsafe(no_mangle)]
pub extern "C" fn zilunthar_terms(rate: u64, short: u64, long: u64) -> u8
    ensures { result ≡ fit_number (verdict rate short long) }
{
    match Terms::new(rate, short, long) {
        Ok(_) => 0,
        Err(Unfit::RateTooHigh) => 1,
        Err(Unfit::ShortTooShort) => 2,
        Err(Unfit::LongTooLong) => 3,
        Err(Unfit::TooClose) => 4,
    }
}

/// What a handle holds is gone, and the memory of it is given back.
#[unsafe(no_mangle)]
pub extern "C" fn zilunthar_release(heap: Global, handle: &mut Handle)
    ensures { held handle.new ≡ None }
{
    drop(handle.take(heap));
}
