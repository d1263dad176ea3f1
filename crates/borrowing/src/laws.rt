ghost use Rattle.borrowing.specs.Used.{AllCovered};
ghost use Rattle.borrowing.specs.Refusals.{RefusalsChangeNothing};

/// After every step, the numbers on file are at least those that any message carried.
pub fn used_numbers_are_on_file()
    ensures { AllCovered }
{}

/// What is refused changes nothing, but for a copy that was no longer valid: it is let go.
pub fn refusals_change_nothing()
    ensures { RefusalsChangeNothing }
{}
