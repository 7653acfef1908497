// One pass over the FIFO log of a process.
#![tactic(auto)]

ghost use Rattle.std.specs.Prelude.{length};
ghost use Rattle.sets.specs.Members.{item_of};
ghost use Rattle.logtest.specs.Log.{Passable, Passed};

// The set of the items, the processes that every item is addressed to, how many items are of each sender.
#[derive(Drop)]
pub struct Gathered {
    pub set: u64,
    pub all: u16,
    pub counts: [u16; 16],
}

// What the items of a log tell, each below 64, by the addressees and the senders of the messages and the bits of a set.
pub fn pass(log: &[u16], to: &[u16; 64], from: &[u32; 64], bits: &[u64; 64]) -> Gathered
    requires { Passable log.now to.now from.now bits.now }
    ensures { Passed (item_of log.now) (length log.now) to.now from.now result.set result.all result.counts }
{
    let mut set: u64 = 0;
    let mut all: u16 = 65535;
    let mut counts: [u16; 16] = [0; 16];
    for x in log {
        let m = usize::from(*x);
        // a cast, since std has no `From<u32>` for usize
        let q = from[m] as usize;
        set |= bits[m];
        all &= to[m];
        counts[q] += 1;
    }
    Gathered { set, all, counts }
}
