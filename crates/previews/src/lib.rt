#![tactic(auto)]

// This crate is its specs: a preview gives the words of the step, and the deliveries that it adds. A library has at least
// one function, and this is it.
pub fn same(x: u16) -> u16 {
    x
}
