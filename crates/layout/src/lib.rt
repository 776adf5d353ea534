// The layout of a page: which records of a row are its entries, their bytes, and its length. The functions are for the crates above and no public calls.
#![tactic(auto)]

pub mod records; // the entry of a record
pub mod runs; // the records of a row by their layers
pub mod sizes; // the length of a page
