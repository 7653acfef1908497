#![tactic(auto)]

// This crate is its specs: laws of the world and of the calls on lent words.
