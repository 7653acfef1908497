#![tactic(auto)]

// This crate is its specs: how many letters a settle can make arrive, and that it ends. A library has at least one
// function, and this is it.
pub fn same(x: u16) -> u16 {
    x
}
