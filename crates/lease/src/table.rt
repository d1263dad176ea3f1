ghost use Rattle.std.specs.Prelude.{◌≤◌, vec_len, vec_capacity};

use crate::lease::Lease;
use message::form::Ask;
use part::head::Head;
use std::alloc::{AllocError, Global};

/// How many leases may run at once.
pub const MOST: usize = 4096;

/// The leases. Memory for 4,096 is taken at the start, so that no step fails for want of it.
#[derive(Drop)]
pub struct Table {
    leases: Vec<Lease>,
    ghost room: { 4096 ≤ vec_capacity leases },
    ghost most: { vec_len leases ≤ 4096 },
}

impl Table {
    ghost use Rattle.std.specs.Prelude.{◌≡◌, ◌<◌, true, false, [], ◌∷◌, ◌++◌, IfOk, MatchOption, count_by, filter, nat_le};
    ghost use Rattle.std.specs.List.{list_any};
    ghost use Rattle.lease.specs.Leases.{running, barring_ask, allowing_write, staying_after};
    ghost use Rattle.lease.specs.Tables.{leases, marks_of};

    /// No leases, and memory for all that may run.
    pub fn new(heap: Global) -> Result<Table, AllocError>
        ensures { IfOk result (λ t. leases t ≡ []) }
    {
        let leases = Vec::with_capacity(heap, MOST)?;
        Ok(Table { leases })
    }

    /// Which borrowers have a lease that stands in the way of a loan; none where no lease does.
    // The reading stays beside the ask: the clock is the keeper's, and the ask came.
    pub fn barring(&self, clock: u64, ask: &Ask) -> Option<[bool; 32]>
        ensures { MatchOption result (list_any (barring_ask clock ask.now) (leases self.now) ≡ false) (λ by. (list_any (barring_ask clock ask.now) (leases self.now) ≡ true) × (by ≡ marks_of (barring_ask clock ask.now) (leases self.now))) }
    {
        Table::marks(&self.leases, clock, ask)
    }

    // Which of the 32 borrowers have a lease that stands in the way of a loan; none where no lease does.
    // One loop over the leases stays, which looks at each of them once: a search of the table for each borrower took 63 microseconds of a full
    // table, and this 2. It stays a function of its own when built: within the whole of what answers a line its loop lacks registers.
    #[inline(never)]
    fn marks(leases: &[Lease], clock: u64, ask: &Ask) -> Option<[bool; 32]>
        ensures { MatchOption result (list_any (barring_ask clock ask.now) leases.now ≡ false) (λ by. (list_any (barring_ask clock ask.now) leases.now ≡ true) × (by ≡ marks_of (barring_ask clock ask.now) leases.now)) }
    {
        let mut marks = [false; 32];
        let mut barred = false;
        for l in leases {
            if l.bars(clock, ask) {
                barred = true;
                // `as usize` stays: with `usize::from` the proof did not close.
                let w = l.who as usize;
                if w < 32 {
                    marks[w] = true;
                }
            }
        }
        if barred { Some(marks) } else { None }
    }

    /// Whether a borrower may write a part.
    pub fn allows(&self, clock: u64, write: &Head) -> bool
        ensures { result ≡ list_any (allowing_write clock write.now) (leases self.now) }
    {
        self.leases.iter().any(|l| l.allows(clock, write))
    }

    /// How many leases run.
    pub fn running(&self, clock: u64) -> usize
        ensures { result ≡ count_by (running clock) (leases self.now) }
    {
        self.leases.iter().filter(|l| l.runs(clock)).count()
    }

    /// Whether as many leases run as may.
    // They are counted only where the table has so many at all.
    pub fn is_full(&self, clock: u64) -> bool
        ensures { result ≡ nat_le 4096 (count_by (running clock) (leases self.now)) }
    {
        self.leases.len() >= MOST && self.running(clock) >= MOST
    }

    // Drops the leases that no longer run.
    fn expire(&mut self, clock: u64)
        ensures { leases self.new ≡ filter (running clock) (leases self.old) }
    {
        self.leases.retain(|l| l.runs(clock));
    }

    /// Drops the leases that no longer run and adds one, where fewer than 4,096 run.
    pub fn grant(&mut self, clock: u64, lease: Lease)
        requires { count_by (running clock) (leases self.old) < 4096 }
        ensures { leases self.new ≡ filter (running clock) (leases self.old) ++ lease ∷ [] }
    {
        self.expire(clock);
        self.leases.push_reserved(lease);
    }

    /// Ends the leases of a part to a borrower for asks up to this number.
    pub fn end(&mut self, back: &Head)
        ensures { leases self.new ≡ filter (staying_after back.now) (leases self.old) }
    {
        self.leases.retain(|l| l.stays(back));
    }

    /// Ends every lease.
    pub fn clear(&mut self)
        ensures { leases self.new ≡ [] }
    {
        self.leases.clear();
    }
}
