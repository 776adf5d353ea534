// The tree of pages.
#![tactic(auto)]
