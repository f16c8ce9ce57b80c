// Specifications and proofs only: document 01, "The privacy rule", of the machine.
#![tactic(auto)]
