ghost use Rattle.borrower.specs.Used.{Covered};

/// After every step, the numbers on file are at least those that any message carried.
pub fn used_numbers_are_on_file()
    ensures { Covered }
{}
