#![tactic(auto)]

// This crate is its specs: no process starves. A library has at least one function, and this is it.
pub fn same(x: u16) -> u16 {
    x
}
