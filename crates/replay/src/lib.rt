// The replay of a replica's deliveries, stated in `specs/` and proved in `proofs/`: there is no code of its own.
#![tactic(auto)]
