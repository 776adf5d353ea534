// The calls that write a register from one, with rows that are lent. The functions are for the crates above and no public calls.
#![tactic(auto)]

mod set; // the word of one record in an index
mod tests; // the tests of a call's own arguments
pub mod accepted; // part of the records of a register that is accepted
pub mod rows; // the calls
