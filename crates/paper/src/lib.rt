// Document 01 as definitions (specs/), and its checked descriptions (proofs/). There is no code here: the crates
// above are proved against it.
#![tactic(auto)]
