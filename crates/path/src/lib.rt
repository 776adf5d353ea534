// The path of a key and what a path says of it: definitions and promises. There is no code here.
#![tactic(auto)]
