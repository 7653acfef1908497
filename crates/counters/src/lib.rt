// A message's counters for one group against del: 16 words and 16 words, lent where they stand.
#![tactic(auto)]

ghost use Rattle.std.specs.Prelude.{◌≡◌};
ghost use Rattle.definitions.specs.General.{every};
ghost use Rattle.counters.specs.Counters.{rows_at_most};

// Whether the counters of the first n processes, but for the sender's, are at most their entries of del: gathered over
// all 16 without a branch, and those from n on let through.
pub fn at_most(counters: &[u16; 16], del: &[u16; 16], sender: u16, n: u16) -> bool
    ensures { result ≡ every n (rows_at_most sender counters.now del.now) }
{
    let mut ok = true;
    for q in 0..16 {
        let i = usize::from(q);
        ok &= (n <= q) | ((q == sender) | (counters[i] <= del[i]));
    }
    ok
}
