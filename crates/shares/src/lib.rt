// Demand 3, the shares: theorems only, in specs/, and in proofs/ where an edit turns what they say.
#![tactic(auto)]
