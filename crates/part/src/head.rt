ghost use Rattle.std.specs.Prelude.{◌≡◌, [], ◌∷◌, ◌++◌, length, drop, if◌then◌else◌, MatchOption, nat_le};
ghost use Rattle.part.specs.Bytes.{headed, Named};
ghost use Rattle.part.specs.Heads.{Heads, NoHead, Alone, NotAlone};

use crate::number::number_at;
use crate::place::Place;
use crate::who::Who;

/// How many bytes a head has.
pub const HEAD_SIZE: usize = 7;

/// What most messages and records begin with, after their first byte: a borrower, a part and a number.
#[derive(Clone, Copy, Debug, PartialEq, Eq)]
pub struct Head {
    pub who: Who,
    pub place: Place,
    pub number: u32,
}

impl Head {
    /// The head that the bytes begin with, where they begin with one.
    pub fn read(bytes: &[u8]) -> Option<Head>
        ensures { MatchOption result (NoHead bytes.now) (λ h. Heads bytes.now h) }
    {
        let [who, file, part, ..] = bytes else {
            return None;
        };
        Some(Head {
            who: Who::new(*who)?,
            place: Place::new(*file, *part)?,
            number: number_at(bytes, 3)?,
        })
    }

    /// The head that the bytes are, where nothing stands behind it.
    pub fn read_alone(bytes: &[u8]) -> Option<Head>
        ensures { MatchOption result (NotAlone bytes.now) (λ h. Alone bytes.now h) }
    {
        let head = Head::read(bytes)?;
        if bytes.len() == HEAD_SIZE {
            Some(head)
        } else {
            None
        }
    }

    /// Its borrower and its part are there.
    pub fn named(self)
        ensures { Named self.who.id self.place.at self.number }
    {}

    /// Writes a first byte and the head at the front; false, and nothing is written, where there is no room.
    // A `bool` stays: every caller has made room, so that an error would only be thrown away at each call.
    pub fn put(self, first: u8, out: &mut [u8]) -> bool
        ensures named { Named self.who.id self.place.at self.number }
        ensures fits { result ≡ nat_le 8 (length out.old) }
        ensures after { out.new ≡ (if result then (first ∷ headed self.who.id self.place.at self.number []) ++ drop 8 out.old else out.old) }
    {
        if out.len() < 8 {
            return false;
        }
        let [a, b, c, d] = self.number.to_be_bytes();
        let head = [
            first,
            self.who.id,
            self.place.file(),
            self.place.part(),
            a,
            b,
            c,
            d,
        ];
        out[0..8].copy_from_slice(&head);
        true
    }
}
