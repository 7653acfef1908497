#![tactic(auto)]

// This crate is its specs: a run of calls on lent words is the run of its state. A library has at least one
// function, and this is it.
pub fn same(x: u16) -> u16 {
    x
}
