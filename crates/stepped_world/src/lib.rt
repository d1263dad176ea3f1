// The world of one keeper, its borrowers, the network, the journals and the true time, and what is true of all its runs.
#![tactic(auto)]

ghost use Rattle.stepped_world.specs.Batches.{BatchTheorem};
ghost use Rattle.stepped_world.specs.Cases.{AllCome, cases};
ghost use Rattle.stepped_world.specs.Laws.{TimeGoesOn};
ghost use Rattle.stepped_world.specs.Promise.{Theorem, SilenceEnds};

/// Names the law that in every run the true time and all clocks only go on.
pub fn time_goes_on()
    ensures { TimeGoesOn }
{}

/// Names the theorem: of every run from empty journals on, whatever the network does and whoever stops when, all that `Promise` says
/// holds while the clocks have kept within their stated error.
pub fn keeps_promise()
    ensures { Theorem }
{}

/// Names the theorem that nobody is kept from writing by silence: a borrower can wait, the clocks within their error, and once the leases
/// of those who don't answer have ended it gets to write.
pub fn silence_ends()
    ensures { SilenceEnds }
{}

/// Names the theorem of a keeper whose messages share syncs: whatever happens and wherever it stops, its journal is left as after some
/// first part of its messages, none of whose answers has left that is not safe, and all that is promised of a run holds.
pub fn batches_keep_promise()
    ensures { BatchTheorem }
{}

/// Names the table of cases: some runs, event by event, and what is answered to each.
pub fn cases_come_out()
    ensures { AllCome cases }
{}
