ghost use Rattle.std.specs.Prelude.{◌≡◌, ◌/◌, ◌%◌, map};
ghost use Rattle.machine.specs.Effects.{note_of};
ghost use Rattle.capi.specs.Numbers.{answer_number};
ghost use Rattle.capi.specs.Words.{word_by, word_in};

use machine::notice::Notice;
use message::refusal::Refusal;
use part::place::Place;

/// What a writer is told of its write: 4 that it is in, 5 that it is void, as the messages that say so begin; the part, and the
/// number of the write. All 0 where it is told nothing.
#[repr(C)]
#[derive(Clone, Copy, Debug, Default, PartialEq, Eq)]
pub struct Word {
    pub kind: u8,
    pub file: u8,
    pub part: u8,
    pub number: u32,
}

/// What a call left in the buffers of the host, a record, and messages of one size, one behind the other; and what a writer is
/// told.
#[repr(C)]
#[derive(Clone, Copy, Debug, PartialEq, Eq)]
pub struct Reply {
    pub record_size: usize,
    pub message_count: usize,
    pub message_size: usize,
    pub told: Word,
}

/// What comes of a call: its number, 0 or that of a refusal, and what it left in the buffers.
#[derive(Clone, Copy, Debug, PartialEq, Eq)]
pub struct Answer {
    pub number: u8,
    pub reply: Reply,
}

/// The number of an answer: 0, or that of the refusal.
pub fn number_of(answer: Result<(), Refusal>) -> u8
    ensures { result ≡ answer_number answer }
{
    match answer {
        Ok(()) => 0,
        Err(refusal) => refusal.number(),
    }
}

// A word of this kind about a write.
fn of_write(kind: u8, place: Place, number: u32) -> Word
    ensures { result ≡ record { kind = kind; file = place.at / 256; part = place.at % 256; number = number } }
{
    Word {
        kind,
        file: place.file(),
        part: place.part(),
        number,
    }
}

// What a writer is told by a notice.
fn word_by(notice: Notice) -> Word
    ensures { result ≡ word_by (note_of notice) }
{
    match notice {
        Notice::In { place, number } => of_write(4, place, number),
        Notice::Void { place, number } => of_write(5, place, number),
    }
}

/// What a writer is told first, if anything.
pub fn word_in(notices: &[Notice]) -> Word
    ensures { result ≡ word_in (map note_of notices.now) }
{
    match notices {
        [notice, ..] => word_by(*notice),
        [] => Word::default(),
    }
}
