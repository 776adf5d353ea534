// Opened pages: those of a second register that the first does not know. The functions are for the crates above and no public calls.
#![tactic(auto)]

pub mod pass; // the passes over the second register's pages
