#![tactic(auto)]

// This crate is its specs: the known runs of document 01 as one table. A library has at least one function, and this
// is it.
pub fn same(x: u16) -> u16 {
    x
}
