// Definitions and lemmas on lists that every layer cites. No code: specs/ and proofs/ are what it has.
#![tactic(auto)]
