// A crate of definitions and proofs only: document 01's marked values, as one table, and that they follow
// from the definitions.
#![tactic(auto)]
