// What is known of the tree under a page, and what it says of registers. No code.
#![tactic(auto)]
