// The calls that read one register, with rows that are lent. The functions are for the crates above and no public calls.
#![tactic(auto)]

mod bytes; // bytes of outputs
pub mod accepted; // the records of a register that is accepted
pub mod rows; // the calls
