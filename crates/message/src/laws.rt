ghost use Rattle.message.specs.Laws.{Distinct, Exact, CutRefused, Gave, NoneLonger, ReadsExactly};
ghost use Rattle.message.specs.Format.{said, layout};

use crate::LONGEST;
use crate::decode::decode;
use crate::encode::encode;
use crate::form::{Malformed, Message};

/// No two messages have the same bytes.
pub fn messages_are_distinct()
    ensures { Distinct }
{}

/// What reads the bytes of a message gives that message.
pub fn reading_is_exact()
    ensures { Exact }
{}

/// Every proper first part of a message is refused.
pub fn cut_is_refused()
    ensures { CutRefused }
{}

/// Reading, as a function of the bytes, gives exactly the well-formed message that has them.
pub fn reads_exactly()
    ensures { ReadsExactly }
{}

/// No message is longer than the longest.
pub fn none_is_longer()
    ensures { NoneLonger LONGEST }
{}

/// Writes a message into bytes that have room for any, and reads it again: it is the same.
pub fn again(
    message: &Message,
    part: &[u8; 1024],
    out: &mut [u8; 1033],
) -> Result<Message, Malformed>
    ensures { Gave (layout (said part.now message.now)) result (said part.now message.now) }
{
    let size = encode(message, part, out).ok_or(Malformed)?;
    decode(&out[0..size])
}
