// The contract of every public operation allows only one outcome. Theorems only, in proofs/.
#![tactic(auto)]
