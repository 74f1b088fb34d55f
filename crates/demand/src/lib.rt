// Demand 3, whole, that nothing waits for good, and the worked cases, stated in `specs/` and proved in `proofs/`: there is no code of its own.
#![tactic(auto)]
