// The demands of the request over whole logs of calls, as definitions and theorems: see specs/ and
// proofs/. No functions.

#![tactic(auto)]
