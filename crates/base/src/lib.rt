#![tactic(auto)]

// This crate is its specs: laws of the general words of the definitions.
