ghost use Rattle.std.specs.Prelude.{◌≡◌, length};
ghost use Rattle.std.specs.Option.{option_map};
ghost use Rattle.lines.specs.Words.{words, rest_words};
ghost use Rattle.machine.specs.Inputs.{input_of};
ghost use Rattle.startup.specs.Lines.{room, came_of, input_in, said_in, said_of};

use crate::program::Program;
use lines::decimal::number;
use lines::hex::decode;
use lines::words::split;
use machine::input::Input;
use machine::machine::Machine;

/// So many bytes of a line are kept: one more than the longest message has, so that no longer one is taken for a message.
pub const ROOM: usize = 1034;

/// What a line says: a reading of the clock, and what comes with it.
#[derive(Clone, Copy, Debug, PartialEq, Eq)]
pub struct Said<'a> {
    pub clock: u64,
    pub input: Input<'a>,
}

// A message that came, put into the buffer. Bytes for which there is no room are left out: no message has so many.
fn came<'a>(word: &[u8], buffer: &'a mut [u8]) -> Option<Input<'a>>
    requires { length buffer.old ≡ room }
    ensures { option_map input_of result ≡ came_of word.now }
{
    let size = decode(word, buffer)?;
    Some(Input::Came(&buffer[..size.min(ROOM)]))
}

// What comes, by the words behind the reading.
fn input<'a, M: Machine, P: Program<M>>(
    rest: Option<&[u8]>,
    buffer: &'a mut [u8],
) -> Option<Input<'a>>
    requires { length buffer.old ≡ room }
    ensures { option_map input_of result ≡ input_in P.calls (rest_words rest.entry) }
{
    let Some(rest) = rest else {
        return Some(Input::Reading);
    };
    let (word, more) = split(rest);
    match more {
        Some(args) => Some(Input::Called(P::call(word, args, buffer)?)),
        None => came(word, buffer),
    }
}

/// What a line says, where it is in one of the forms. The bytes that it says are put into the buffer.
pub fn read<'a, M: Machine, P: Program<M>>(line: &[u8], buffer: &'a mut [u8]) -> Option<Said<'a>>
    requires { length buffer.old ≡ room }
    ensures { option_map said_of result ≡ said_in P.calls (words line.now) }
{
    let (word, more) = split(line);
    let clock = number(word)?;
    let input = input::<M, P>(more, buffer)?;
    Some(Said { clock, input })
}
