use message::kind::Kind;

/// A copy of a part that a borrower holds: what it was lent for, and what the borrower's clock read at the ask.
#[derive(Clone, Copy, Debug, PartialEq, Eq)]
pub struct Held {
    pub kind: Kind,
    pub asked: u64,
}

/// What a borrower keeps of a part: the numbers of its last ask and of its last write, when it last asked,
/// and the copy that it holds, if any.
#[derive(Clone, Copy, Debug, Default, PartialEq, Eq)]
pub struct Part {
    pub ask: u32,
    pub write: u32,
    pub asked: u64,
    pub hold: Option<Held>,
}

/// The numbers of a part in the borrower's journal: at least those that it has used.
#[derive(Clone, Copy, Debug, Default, PartialEq, Eq)]
pub struct OnFile {
    pub ask: u32,
    pub write: u32,
}

/// An ask that is to be sent: its number, and the number of the last write.
#[derive(Clone, Copy, Debug, PartialEq, Eq)]
pub struct Asked {
    pub number: u32,
    pub written: u32,
}

/// What tells whether a copy is valid: what the borrower's clock reads, and for how long from its ask on a copy is.
#[derive(Clone, Copy, Debug, PartialEq, Eq)]
pub struct Timing {
    pub clock: u64,
    pub short: u64,
}
