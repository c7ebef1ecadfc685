// Runs of the card, computed by the checker, and wrong cards that violate demand 3. Theorems only.
#![tactic(auto)]
