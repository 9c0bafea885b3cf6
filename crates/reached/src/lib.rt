// What is reached by the calls from an opening (document 01, "The calls and their numbers"): definitions in
// specs/ and theorems in proofs/. No functions.

#![tactic(auto)]
