ghost use Rattle.std.specs.Prelude.{◌≡◌};
ghost use Rattle.std.specs.Option.{option_map};
ghost use Rattle.lines.specs.Names.{small_of, place_of, kind_of};

use crate::decimal::number;
use message::kind::Kind;
use part::place::Place;

/// The number that a word stands for, where it is below 256.
pub fn byte(word: &[u8]) -> Option<u8>
    ensures { result ≡ small_of word.now 256 }
{
    u8::try_from(number(word)?).ok()
}

/// The part that two words name, where there are such a file and such a part.
pub fn place(file: &[u8], part: &[u8]) -> Option<Place>
    ensures { option_map (λ p. p.at) result ≡ place_of file.now part.now }
{
    Place::new(byte(file)?, byte(part)?)
}

/// What a part is asked for, as a word says: 0 for reading, 1 for writing.
pub fn kind(word: &[u8]) -> Option<Kind>
    ensures { result ≡ kind_of word.now }
{
    Kind::try_from(byte(word)?).ok()
}
