// Lateness of a watched table, as definitions and theorems over any limits: see specs/ and proofs/. No
// functions.

#![tactic(auto)]
