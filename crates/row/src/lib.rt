// Rows of records that stand in registers: a word for each. The functions are for the crates above and no public calls.
#![tactic(auto)]

pub mod fetch; // a record, from its word in the index
pub mod recall; // a record of a row, from where its page was left
pub mod bytes; // values
pub mod search; // where a key stands, by halves of an index
