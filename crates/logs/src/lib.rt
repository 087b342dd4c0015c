// Theorems alone: the log of a run, and that the plain engine's log is the first one's. specs/Lib.antt is the index.
#![tactic(auto)]
