ghost use Rattle.lender.specs.Replay.{Kept};

/// What memory has after a message is what it had before, with the records of the message replayed.
pub fn memory_is_kept()
    ensures { Kept }
{}
