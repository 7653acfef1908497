#![tactic(auto)]

// This crate is its specs: letters, marks and trust, and that under the trust rule the FIFO logs agree once no letter is
// left. A library has at least one function, and this is it.
pub fn same(x: u16) -> u16 {
    x
}
