ghost use Rattle.lease.specs.Exclusion.{NeverClash};

/// No step of the table makes two leases clash, and neither does time.
pub fn leases_never_clash()
    ensures { NeverClash }
{}
