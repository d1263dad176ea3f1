use lease::lease::Lease;
use lease::table::Table;
use message::form::Ask;
use std::alloc::{AllocError, Global};

/// What a stop takes away: the leases, and when the grace period ends.
#[derive(Drop)]
pub struct Volatile {
    pub table: Table,
    pub quiet: u64,
}

impl Volatile {
    ghost use Rattle.std.specs.Prelude.{◌≡◌, ◌+◌, ◌^◌, ◌<◌, count_by, nat_lt, []};
    ghost use Rattle.lease.specs.Leases.{running};
    ghost use Rattle.keeping.specs.Volatiles.{volatile_of, lend_for};

    /// No leases, and no grace period.
    pub fn new(heap: Global) -> Result<Volatile, AllocError> {
        Ok(Volatile {
            table: Table::new(heap)?,
            quiet: 0,
        })
    }

    /// No leases, and a grace period up to this reading.
    pub fn begin(&mut self, quiet: u64)
        ensures { volatile_of self.new ≡ record { leases = []; quiet = quiet } }
    {
        self.table.clear();
        self.quiet = quiet;
    }

    /// Whether the grace period lasts.
    pub fn is_quiet(&self, clock: u64) -> bool
        ensures { result ≡ nat_lt clock (volatile_of self.now).quiet }
    {
        clock < self.quiet
    }

    /// Lends a part for so long, where there is room in the table and in the clock.
    pub fn lend(&mut self, long: u64, clock: u64, ask: &Ask)
        requires clock { clock + long < 2 ^ 64 }
        requires table { count_by (running clock) (volatile_of self.old).leases < 4096 }
        ensures { volatile_of self.new ≡ lend_for long clock ask.now (volatile_of self.old) }
    {
        let lease = Lease {
            who: ask.head.who.id,
            place: ask.head.place.at,
            kind: ask.kind,
            number: ask.head.number,
            until: clock + long,
        };
        self.table.grant(clock, lease);
    }
}
