// The records of a result, as a row. The functions are for the crates above and no public calls.
#![tactic(auto)]

pub mod cursor; // positions of two rows, and the order of the keys there
pub mod policy; // which record is kept
pub mod choose; // the records of two rows
