ghost use Rattle.std.specs.Prelude.{◌≡◌};
ghost use Rattle.capi.specs.Told.{told_answer, told_number, told_size, reply_after, size_after};

use crate::misuse::Misuse;
use crate::reply::{Answer, Reply};

/// What the host is told of a call that answers by its number alone.
pub fn tell_number(outcome: Result<u8, Misuse>) -> u8
    ensures { result ≡ told_number outcome }
{
    match outcome {
        Ok(number) => number,
        Err(misuse) => misuse.number(),
    }
}

/// The same of one that says how many bytes of a journal are whole records.
pub fn tell_size(outcome: Result<usize, Misuse>, whole: &mut usize) -> u8
    ensures number { result ≡ told_size outcome }
    ensures size { whole.new ≡ size_after outcome whole.old }
{
    match outcome {
        Ok(size) => {
            *whole = size;
            0
        }
        Err(misuse) => misuse.number(),
    }
}

/// The same of one that has a reply.
pub fn tell_answer(outcome: Result<Answer, Misuse>, reply: &mut Reply) -> u8
    ensures number { result ≡ told_answer outcome }
    ensures reply { reply.new ≡ reply_after outcome reply.old }
{
    match outcome {
        Ok(answer) => {
            *reply = answer.reply;
            answer.number
        }
        Err(misuse) => misuse.number(),
    }
}
