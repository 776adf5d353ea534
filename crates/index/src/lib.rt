// One walk over a register's pages: it reads their form, tests prefixes, keys and their order, and notes in two rows where each record
// stands and where each page. The functions are for the crates above and no public calls.
#![tactic(auto)]

mod words; // the words of the two rows
pub mod walk; // the walk over the pages
