// No code: a mode of operation, the one walk over a message that serves all of them, and the laws that loops and round
// trips stand on.

#![tactic(auto)]
