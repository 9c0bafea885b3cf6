// No second outcome meets a promise, and no wrong engine does (document 01, "How the promises are judged"):
// see specs/ and proofs/. No functions.

#![tactic(auto)]
