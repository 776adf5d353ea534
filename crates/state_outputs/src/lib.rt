// The key of a state, and the answer of save and forget once both outputs are written. The functions are for the crates above and no public
// calls.
#![tactic(auto)]

pub mod finish; // the answer once both outputs are written
pub mod names; // the key of a state
