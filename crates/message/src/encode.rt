ghost use Rattle.std.specs.Prelude.{◌≡◌, true, is_some};
ghost use Rattle.message.specs.Format.{said, WellFormed, Encoded};

use crate::form::Message;
use part::number::put_number;

/// Writes the message at the front of `out`, with the bytes of `part` where it carries a part's, and says how many
/// bytes it has; where there is no room it writes nothing.
// A size stays beside the bytes, as of `Read::read`: the caller lends the memory, and no step takes any.
pub fn encode(message: &Message, part: &[u8; 1024], out: &mut [u8]) -> Option<usize>
    ensures formed { is_some result ≡ true → WellFormed (said part.now message.now) }
    ensures wrote { Encoded (said part.now message.now) out.old out.new result }
{
    if out.len() < message.size() {
        return None;
    }
    match message {
        Message::Ask(ask) => {
            ask.head.put(1, out);
            out[8] = u8::from(ask.kind);
            put_number(out, 9, ask.written);
            Some(13)
        }
        Message::Loan { head, kind } => {
            head.put(2, out);
            out[8] = u8::from(*kind);
            out[9..1033].copy_from_slice(part);
            Some(1033)
        }
        Message::Write(head) => {
            head.put(3, out);
            out[8..1032].copy_from_slice(part);
            Some(1032)
        }
        Message::In(head) => {
            head.put(4, out);
            Some(8)
        }
        Message::Void(head) => {
            head.put(5, out);
            Some(8)
        }
        Message::Recall { who, place } => {
            out[0] = 6;
            out[1] = who.id;
            out[2] = place.file();
            out[3] = place.part();
            Some(4)
        }
        Message::Back(head) => {
            head.put(7, out);
            Some(8)
        }
    }
}
