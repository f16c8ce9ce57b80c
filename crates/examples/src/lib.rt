// Proofs only: histories and pairs of lists of calls, by computing. Nothing stands on them, so that no other crate is checked with them.
#![tactic(auto)]
