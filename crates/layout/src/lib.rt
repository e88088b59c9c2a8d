// The stored sheet (document 01): see specs/Sheet.antt, and proofs/ for what holds of it: two tables have equal sheets exactly when
// they show the same, and reading accepts exactly what some table writes. There is no code here: crate sheet writes and loads.
#![tactic(auto)]
