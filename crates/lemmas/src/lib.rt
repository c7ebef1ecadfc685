// Lemmas that the proofs of many crates use. There is no code here.
#![tactic(auto)]
