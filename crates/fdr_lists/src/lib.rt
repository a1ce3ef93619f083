//! Lemmas on lists, options and tests that several crates cite. There is no code.
#![tactic(auto)]
