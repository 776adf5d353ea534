// The records of a collection and its screens: definitions and promises. There is no code here.
#![tactic(auto)]
