ghost use Rattle.journal.specs.Laws.{ReadBack, AppendRead, TornLeaves, StopLeaves, StopLeavesFirst, FrontIsRecords, TornIsCut, CutOnce};

/// Records are read back one after another, whatever follows them.
pub fn records_are_read_back()
    ensures { ReadBack }
{}

/// A record that is appended whole is read back.
pub fn appended_is_read()
    ensures { AppendRead }
{}

/// A proper first part of a record is torn, and leaves the records before it.
pub fn torn_leaves_the_others()
    ensures { TornLeaves }
{}

/// A stop while a record is appended leaves the records before it, and the record if all of its bytes are there.
pub fn stop_leaves_whole_records()
    ensures { StopLeaves }
{}

/// A stop while several records are appended leaves the records before them, and the first of them of which all bytes are there.
pub fn stop_leaves_the_first()
    ensures { StopLeavesFirst }
{}

/// The records of any bytes are their first part, each may stand in the journal, and no record follows.
pub fn front_is_records()
    ensures { FrontIsRecords }
{}

/// A journal with a torn end is cut after the last whole record.
pub fn torn_is_cut()
    ensures { TornIsCut }
{}

/// What is cut has the same records, and is not cut again.
pub fn cut_once()
    ensures { CutOnce }
{}
