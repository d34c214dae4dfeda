// No code: the demands, as theorems over the definitions of the public calls.

#![tactic(auto)]
