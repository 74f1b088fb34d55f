// What is proved of reading beside its contracts, worked cases and absent fields, stated in `specs/` and proved in `proofs/`: there is no code of its own.
#![tactic(auto)]
