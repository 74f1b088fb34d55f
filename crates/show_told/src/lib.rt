// What the text of a trace tells of its replica, stated in `specs/` and proved in `proofs/`: there is no code of its own.
#![tactic(auto)]
