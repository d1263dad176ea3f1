ghost use Rattle.keeping.specs.Laws.{RefusalsChangeNothing, LeasesNeverClash};

/// What is refused leaves all that the keeper has as it was.
pub fn refusals_change_nothing()
    ensures { RefusalsChangeNothing }
{}

/// No two leases that run clash, whatever comes and however late.
pub fn leases_never_clash()
    ensures { LeasesNeverClash }
{}
