// Runs worked out for the statement that nothing waits for good, by deliveries as they are and by wrong ones: stated in `specs/` and proved
// in `proofs/`. There is no code of its own.
#![tactic(auto)]
