// Steps of proofs by hand, for functions that are lent a slice of structs and lend on what they were lent: a run lent again, an array
// lent as a slice, a contract of three clauses. There is no code, and nothing of any one crate.
#![tactic(auto)]
