ghost use Rattle.std.specs.Prelude.{◌≡◌};

use message::form::Ask;
use message::kind::Kind;
use part::head::Head;

/// A lease of a part to a borrower, under the number of the ask, that runs while the keeper's clock is below `until`.
// Plain numbers stay, and no head: so the leases of the code are those of the rules, which know no bounds. The long ones come first:
// fields lie in the order in which they stand here, and so a lease has 16 bytes.
#[derive(Clone, Copy, Debug, PartialEq, Eq)]
pub struct Lease {
    pub until: u64,
    pub number: u32,
    pub place: u16,
    pub who: u8,
    pub kind: Kind,
}

impl Lease {
    ghost use Rattle.lease.specs.Leases.{running, barring_ask, allowing_write, staying_after};

    /// It runs.
    pub fn runs(&self, clock: u64) -> bool
        ensures { result ≡ running clock self.now }
    {
        clock < self.until
    }

    /// It stands in the way of a loan of this part, of this kind, to this borrower.
    pub fn bars(&self, clock: u64, ask: &Ask) -> bool
        ensures { result ≡ barring_ask clock ask.now self.now }
    {
        // The part comes first: it is what most leases of a full table differ in.
        self.place == ask.head.place.at
            && self.runs(clock)
            && self.who != ask.head.who.id
            && (ask.kind.is_writing() || self.kind.is_writing())
    }

    /// It lets this borrower write this part.
    pub fn allows(&self, clock: u64, write: &Head) -> bool
        ensures { result ≡ allowing_write clock write.now self.now }
    {
        self.place == write.place.at
            && self.runs(clock)
            && self.who == write.who.id
            && self.kind.is_writing()
    }

    /// It is not one that this borrower gave back: of this part, for an ask up to this number.
    pub fn stays(&self, back: &Head) -> bool
        ensures { result ≡ staying_after back.now self.now }
    {
        self.who != back.who.id || self.place != back.place.at || self.number > back.number
    }
}
