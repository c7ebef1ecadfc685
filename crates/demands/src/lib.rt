// What is proved of the card for every run of calls. Definitions in specs/ and
// theorems in proofs/ only.
#![tactic(auto)]
