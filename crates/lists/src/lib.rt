// A test or a rule of one element, applied to a list of them, and sums of a list (specs); laws of lists (proofs). No code.
#![tactic(auto)]
