// The documents' cases and wrong programs, by computing. Specifications and proofs alone, apart from the rules.
#![tactic(auto)]
