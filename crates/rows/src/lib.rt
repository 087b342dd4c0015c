// Document 01's proved examples and the stand-ins that it wants rejected: theorems only, in specs/
// and, of the lists that an edit turns, in proofs/.
#![tactic(auto)]
