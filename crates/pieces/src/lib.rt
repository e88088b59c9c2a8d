// What is written for air (document 01, Writing for air): see specs/Air.antt, and proofs/ for what holds of it: the whole output,
// read twice into an empty table, shows the same sets. There is no code here: crate air writes it.
#![tactic(auto)]
