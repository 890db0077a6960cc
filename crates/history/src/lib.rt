// The claim about every list of calls (demand 3): definitions in specs/, and in proofs/ what shows it. It
// has no code.
#![tactic(auto)]
