// What is proved of document 01's definitions, those of crate paper. There is no code here: the crates above cite it.
#![tactic(auto)]
