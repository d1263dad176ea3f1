ghost use Rattle.std.specs.Prelude.{◌≡◌};
ghost use Rattle.message.specs.Kinds.{kind_byte, writes, KindOf};

use crate::form::Malformed;

/// What a part is lent for. The numbers are the bytes of a message that stand for the kinds.
#[derive(Clone, Copy, Debug, PartialEq, Eq)]
pub enum Kind {
    Reading = 0,
    Writing = 1,
}

impl TryFrom<u8> for Kind {
    type Error = Malformed;

    ghost try_from_gives = { KindOf };

    fn try_from(byte: u8) -> Result<Kind, Malformed> {
        match byte {
            0 => Ok(Kind::Reading),
            1 => Ok(Kind::Writing),
            2..=255 => Err(Malformed),
        }
    }
}

impl From<Kind> for u8 {
    ghost from_gives = { λ k b. b ≡ kind_byte k };

    fn from(kind: Kind) -> u8 {
        kind as u8
    }
}

impl Kind {
    /// Whether it lets the borrower write.
    pub fn is_writing(self) -> bool
        ensures { result ≡ writes self }
    {
        matches!(self, Kind::Writing)
    }
}
