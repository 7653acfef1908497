#![tactic(auto)]

// This crate is its specs: at which processes no message is ready, and that steps keep it so. A library has at least
// one function, and this is it.
pub fn same(x: u16) -> u16 {
    x
}
