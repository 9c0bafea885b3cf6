// The boundary examples of document 01, P1 to P10, as one proved table, and worked examples of
// docs/DECISIONS.md: see specs/ and proofs/. No functions.

#![tactic(auto)]
