// Specifications and proofs only: what holds after every history of calls.
#![tactic(auto)]
