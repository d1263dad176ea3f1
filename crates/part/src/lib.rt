// What is lent and to whom: the parts of the files, the borrowers, a part's bytes in lent memory,
// and the bytes, high byte first, that name a part and a borrower.
#![tactic(auto)]

pub mod files;
pub mod head;
pub mod number;
pub mod place;
pub mod who;
