ghost use Rattle.std.specs.Prelude.{◌≡◌, true};
ghost use Rattle.borrowing.specs.Tablets.{beside};
ghost use Rattle.tablet.specs.Calls.{calls_of};

use crate::calls;
use borrowing::tablet::Tablet;
use machine::input::Call;
use part::files::PART_SIZE;
use part::place::Place;
use startup::program::Program;

/// A tablet's program: its lines say calls too.
#[derive(Drop)]
pub struct ByLines;

impl Program<Tablet> for ByLines {
    ghost calls = { calls_of };

    ghost syncs_each = { true };

    ghost copies = { λ t q. (beside t).copies q };

    fn call<'a>(verb: &[u8], args: &[u8], buffer: &'a mut [u8]) -> Option<Call<'a>> {
        calls::call(verb, args, buffer)
    }

    fn syncs_each() -> bool {
        true
    }

    fn copy(machine: &Tablet, place: Place) -> &[u8; PART_SIZE] {
        machine.copy(place)
    }
}
