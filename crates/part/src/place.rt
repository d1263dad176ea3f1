ghost use Rattle.std.specs.Prelude.{◌≡◌, ◌+◌, ◌*◌, ◌/◌, ◌%◌, ◌<◌, ◌≤◌, MatchOption};

/// A part: one of 64 files with 256 parts each, counted through all files.
#[derive(Clone, Copy, Debug, PartialEq, Eq)]
pub struct Place {
    pub at: u16,
    ghost within: { at < 16384 },
}

impl Place {
    /// The part of this number in this file, where there is such a file.
    pub fn new(file: u8, part: u8) -> Option<Place>
        ensures { MatchOption result (64 ≤ file) (λ p. p.at ≡ 256 * file + part) }
    {
        if file < 64 {
            Some(Place {
                at: 256 * u16::from(file) + u16::from(part),
            })
        } else {
            None
        }
    }

    /// The number of its file.
    pub fn file(self) -> u8
        ensures { result ≡ self.at / 256 }
    {
        (self.at / 256) as u8
    }

    /// Its number in its file.
    pub fn part(self) -> u8
        ensures { result ≡ self.at % 256 }
    {
        (self.at % 256) as u8
    }
}
