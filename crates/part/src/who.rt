ghost use Rattle.std.specs.Prelude.{◌≡◌, ◌<◌, ◌≤◌, MatchOption};

/// How many borrowers there are.
pub const BORROWERS: usize = 32;

/// A borrower: one of 32, numbered from 0.
#[derive(Clone, Copy, Debug, PartialEq, Eq)]
pub struct Who {
    pub id: u8,
    ghost small: { id < 32 },
}

impl Who {
    /// The borrower of this number, where there is one.
    pub fn new(id: u8) -> Option<Who>
        ensures { MatchOption result (32 ≤ id) (λ w. w.id ≡ id) }
    {
        if id < 32 { Some(Who { id }) } else { None }
    }
}
