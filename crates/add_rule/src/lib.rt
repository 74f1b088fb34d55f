// That an added entry's version is never that of another, and that the rule for adding does without that condition: stated in `specs/` and
// proved in `proofs/`. There is no code of its own.
#![tactic(auto)]
