ghost use Rattle.std.specs.Prelude.{◌≡◌, false, None};
ghost use Rattle.keeping.specs.Keepers.{durable};

use keeping::keeper::Keeper;
use machine::input::Call;
use part::files::PART_SIZE;
use part::place::Place;
use startup::program::Program;

/// The keeper's program: its lines say no calls.
#[derive(Drop)]
pub struct ByLines;

impl Program<Keeper> for ByLines {
    ghost calls = { λ _. None };

    ghost syncs_each = { false };

    ghost copies = { λ k q. (durable k).parts q };

    fn call<'a>(_verb: &[u8], _args: &[u8], _buffer: &'a mut [u8]) -> Option<Call<'a>> {
        None
    }

    // Those of lines that wait together share one sync.
    fn syncs_each() -> bool {
        false
    }

    // It shows none: what it has of a part stands for a copy.
    fn copy(machine: &Keeper, place: Place) -> &[u8; PART_SIZE] {
        machine.part(place)
    }
}
