ghost use Rattle.std.specs.Prelude.{◌≡◌, ◌∷◌, length};
ghost use Rattle.std.specs.Option.{option_map};
ghost use Rattle.lines.specs.Words.{words};
ghost use Rattle.machine.specs.Inputs.{call_of};
ghost use Rattle.startup.specs.Lines.{room};
ghost use Rattle.tablet.specs.Calls.{two_of, write_of, three_of, calls_of};

use lines::hex::decode;
use lines::names::{kind, place};
use lines::words::{is, split};
use machine::input::Call;
use part::files::PART_SIZE;
use part::place::Place;

// A call of two words behind it.
fn two<'a>(verb: &[u8], place: Place) -> Option<Call<'a>>
    ensures { option_map call_of result ≡ two_of verb.now place.at }
{
    // Tests stay, here and below, as `match` on a byte string this long was not proved.
    if is(verb, b"show") {
        Some(Call::Show(place))
    } else if is(verb, b"forget") {
        Some(Call::Forget(place))
    } else {
        None
    }
}

// A write, of which the bytes are put into the buffer.
fn write<'a>(place: Place, word: &[u8], buffer: &'a mut [u8]) -> Option<Call<'a>>
    requires { length buffer.old ≡ room }
    ensures { option_map call_of result ≡ write_of place.at word.now }
{
    let size = decode(word, buffer)?;
    if size != PART_SIZE {
        return None;
    }
    let part = buffer.first_chunk().unwrap();
    Some(Call::Write { place, part })
}

// A call of three words behind it.
fn three<'a>(verb: &[u8], place: Place, word: &[u8], buffer: &'a mut [u8]) -> Option<Call<'a>>
    requires { length buffer.old ≡ room }
    ensures { option_map call_of result ≡ three_of verb.now place.at word.now }
{
    if is(verb, b"ask") {
        let kind = kind(word)?;
        Some(Call::Ask { place, kind })
    } else if is(verb, b"write") {
        write(place, word, buffer)
    } else {
        None
    }
}

/// A call, from its word and the words behind it.
pub fn call<'a>(verb: &[u8], args: &[u8], buffer: &'a mut [u8]) -> Option<Call<'a>>
    requires { length buffer.old ≡ room }
    ensures { option_map call_of result ≡ calls_of (verb.now ∷ words args.now) }
{
    let (file, more) = split(args);
    let (part, last) = split(more?);
    let place = place(file, part)?;
    let Some(rest) = last else {
        return two(verb, place);
    };
    let (word, more) = split(rest);
    let None = more else {
        return None;
    };
    three(verb, place, word, buffer)
}
