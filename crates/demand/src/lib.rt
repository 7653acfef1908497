#![tactic(auto)]

// This crate is its specs: demand 3, proved of every list of items on any lent world. A library has at least one
// function, and this is it.
pub fn same(x: u16) -> u16 {
    x
}
