// No code: `specs/Cases` has the cases of paper 01 that are marked P, as one table, and `proofs/Table` the one statement about them.
#![tactic(auto)]
