// Keys: their rule, their order, the leading bytes that two share, and layers are in specs/.
#![tactic(auto)]
