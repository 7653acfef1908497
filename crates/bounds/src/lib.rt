#![tactic(auto)]

// This crate is its specs: the plain bounds that the steps lean on, and that a sound world keeps them. A
// library has at least one function, and this is it.
pub fn same(x: u16) -> u16 {
    x
}
