#![tactic(auto)]

// This crate is its specs: order numbers are kept as multicast and change nothing else. A library has at least one
// function, and this is it.
pub fn same(x: u16) -> u16 {
    x
}
