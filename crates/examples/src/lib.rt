// The examples of FIPS 180-4, of layers and of trees, as theorems.
#![tactic(auto)]
