ghost use Rattle.std.specs.Prelude.{◌≡◌, ◌≤◌, length, vec_len, vec_items};
ghost use Rattle.capi.specs.Buffers.{Wrote};
ghost use Rattle.capi.specs.Answers.{Copied, first_of};

use crate::reply::{Answer, Reply, number_of, word_in};
use machine::effects::Effects;
use message::refusal::Refusal;

// Writes the bytes in front of a buffer: how many they are. Most calls have none for one of the buffers.
fn put_bytes(bytes: &[u8], out: &mut [u8]) -> usize
    requires { length bytes.now ≤ length out.old }
    ensures { Wrote bytes.now result out.old out.new }
{
    if bytes.is_empty() {
        return 0;
    }
    let size = bytes.len();
    out[0..size].copy_from_slice(bytes);
    size
}

// How many bytes the first message has; 0 where there is none.
fn first_size(sizes: &[usize]) -> usize
    ensures { result ≡ first_of sizes.now }
{
    match sizes {
        [size, ..] => *size,
        [] => 0,
    }
}

/// Writes what came of a step to the buffers of the host.
pub fn put(out: &Effects, answer: Result<(), Refusal>, filed: &mut [u8], sent: &mut [u8]) -> Answer
    requires records { vec_len out.now.records.bytes ≤ length filed.old }
    requires sends { vec_len out.now.sends.buffer.bytes ≤ length sent.old }
    ensures { Copied out.now answer result filed.old filed.new sent.old sent.new }
{
    let record_size = put_bytes(&out.records.bytes, filed);
    put_bytes(&out.sends.buffer.bytes, sent);
    Answer {
        number: number_of(answer),
        reply: Reply {
            record_size,
            message_count: out.sends.sizes.len(),
            message_size: first_size(&out.sends.sizes),
            told: word_in(&out.tells.items),
        },
    }
}
