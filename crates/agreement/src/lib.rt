// Host and card agree: what the Function does with the host's reply to its own request.
// Statements in specs/ and theorems in proofs/ only.
#![tactic(auto)]
