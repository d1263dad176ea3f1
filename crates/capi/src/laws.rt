ghost use Rattle.capi.specs.Hosted.{Hosted};

/// A host that appends the record of every call has in its journal what makes its keeper's memory, and what its tablet has on file.
pub fn journal_makes_memory()
    ensures { Hosted }
{}
