// Theorems alone: the plain engine gives the first one's picks, and so keeps its promises. specs/Lib.antt is the index.
#![tactic(auto)]
