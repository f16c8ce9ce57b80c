// Specifications and proofs only: what the exported functions do to what is lent is a history, and so the theorems of histories are the library's.
#![tactic(auto)]
