ghost use Rattle.std.specs.Prelude.{◌≡◌, ℕ, Bool, List, ◌∷◌, length, Option};
ghost use Rattle.std.specs.Option.{option_map};
ghost use Rattle.lines.specs.Words.{words};
ghost use Rattle.machine.specs.Inputs.{Call, call_of};
ghost use Rattle.startup.specs.Lines.{room};

use machine::input::Call;
use machine::machine::Machine;
use part::files::PART_SIZE;
use part::place::Place;

/// What sets a program by lines apart from another: the calls that its lines say, when it syncs, and the copies that its machine shows.
pub trait Program<M: Machine> {
    // by the words behind the reading of the clock, of which there are two or more
    ghost calls: { (words : List (List ℕ)) → Option Call };

    // whether each line's records are synced by themselves
    ghost syncs_each: { Bool };

    // the bytes of each copy
    ghost copies: { M → (place : ℕ) → List ℕ };

    /// The call that a word and the words behind it say, where they are in one of its forms. The bytes of a write are put into the
    /// buffer.
    fn call<'a>(verb: &[u8], args: &[u8], buffer: &'a mut [u8]) -> Option<Call<'a>>
        requires { length buffer.old ≡ room }
        ensures { option_map call_of result ≡ calls (verb.now ∷ words args.now) };

    /// Whether each line's records are synced by themselves, and not with those of lines that wait together.
    fn syncs_each() -> bool
        ensures { result ≡ syncs_each };

    /// The copy of a part.
    fn copy(machine: &M, place: Place) -> &[u8; PART_SIZE]
        ensures { result.now ≡ copies machine.now place.at };
}
