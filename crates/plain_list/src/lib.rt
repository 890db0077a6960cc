// A crate of definitions and proofs only: the plain list, its laws, and when a table agrees with it.
#![tactic(auto)]
