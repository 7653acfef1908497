#![tactic(auto)]

// This crate is its specs: what the counters and the two logs of every reached world mean, and the order of its causal
// logs. A library has at least one function, and this is it.
pub fn same(x: u16) -> u16 {
    x
}
