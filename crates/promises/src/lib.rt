// All that is proved beside the functions' contracts, on one page: `specs/` lists it and `proofs/` cites it. There is no code of its own.
#![tactic(auto)]
