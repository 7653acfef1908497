// The index of a world, 112 numbers lent beside its words: where its parts stand, and the addressees of a message. Words and
// index go side by side, with clauses that say `Bounds`, `Sound` and `Index` of them, and are no struct with these as its
// invariant: a step changes the words first and the index after them, and a struct of two lent parts would need a clause
// more in each contract, that it still holds the same ones.
#![tactic(auto)]

ghost use Rattle.std.specs.Prelude.{◌≡◌, ◌<◌, ◌^◌, length, get_or};

// The numbers of an index.
pub type Table = [u64; 112];

// The addressees of message m stand at m; the set of the messages of q at OWN + q.
pub const OWN: usize = 64;

// The set of the messages in the FIFO log of p stands at LISTED + p.
pub const LISTED: usize = 80;

// The set of its places whose message is not in the causal log stands at OPEN + p.
pub const OPEN: usize = 96;

// The addressees of message m.
pub fn to(x: &[u64], m: usize) -> u16
    requires m_in { m < length x.now }
    requires low { get_or x.now m 0 < 2 ^ 16 }
    ensures { result ≡ get_or x.now m 0 }
{
    x[m] as u16
}
