#![tactic(auto)]

// This crate is its specs: what a settle's answer says of the letters that are left. A library has at least one function,
// and this is it.
pub fn same(x: u16) -> u16 {
    x
}
