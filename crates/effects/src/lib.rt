#![tactic(auto)]

// This crate is its specs: what each part of a step leaves as it was, and what it writes. A library has at
// least one function, and this is it.
pub fn same(x: u16) -> u16 {
    x
}
