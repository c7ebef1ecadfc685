// Demand 3, for any machine whose calls are observed. Definitions in specs/ and
// theorems in proofs/ only.
#![tactic(auto)]
