#![tactic(auto)]

// This crate is its specs: which of two messages came first. A library has at least one function, and this is it.
pub fn same(x: u16) -> u16 {
    x
}
