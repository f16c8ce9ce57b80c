// The rules of the reservation machine: calls on one state and the memory that it is lent. Specifications and proofs alone.
#![tactic(auto)]
