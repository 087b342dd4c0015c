// Theorems alone: of equal tags the flow picked last goes last. specs/Lib.antt is the index.
#![tactic(auto)]
