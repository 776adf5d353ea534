// What every call does to the sorted map and answers, the plain map, and the promises over lists of calls: definitions and their proofs.
#![tactic(auto)]
