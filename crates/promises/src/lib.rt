// What the contracts of the public functions promise together: see proofs/. There is no code here.
#![tactic(auto)]
