// The record of a process, by value: its group, its trust set and its arrays, read from the words, changed and stored
// again.
#![tactic(auto)]

ghost use Rattle.std.specs.Prelude.{◌≡◌, ◌<◌};
ghost use Rattle.world.specs.Layout.{Reads, Changes};
ghost use Rattle.records.specs.Record.{record_of, with_record, with_delivery};

use cells::Words;

// The record: C as 8 rows of 16, b, next and del.
#[derive(Clone, Copy)]
pub struct Process {
    pub group: u16,
    pub trust: u16,
    pub counters: [u16; 128],
    pub sequences: [u16; 8],
    pub next: [u16; 16],
    pub delivered: [u16; 16],
}

impl Process {
    // The counters replaced, and what is delivered of q.
    pub fn deliver(mut self, c: [u16; 128], q: usize, x: u16) -> Process
        requires { q < 16 }
        ensures { result ≡ with_delivery self c q x }
    {
        self.counters = c;
        self.delivered[q] = x;
        self
    }
}

// The record of process p.
pub fn load(w: &Words, p: usize) -> Process
    requires { p < 16 }
    ensures { Reads w.now result (λ s. record_of s p) }
{
    let base = cells::PROCESSES + p * cells::PROCESS;
    let mut c = [0u16; 128];
    cells::get(w, base + cells::COUNTERS, &mut c);
    let mut s = [0u16; 8];
    cells::get(w, base + cells::SEQUENCES, &mut s);
    let mut n = [0u16; 16];
    cells::get(w, base + cells::NEXTS, &mut n);
    let mut d = [0u16; 16];
    cells::get(w, base + cells::DELIVERED, &mut d);
    Process {
        group: w[base],
        trust: w[base + cells::TRUST],
        counters: c,
        sequences: s,
        next: n,
        delivered: d,
    }
}

// r as the record of process p.
pub fn store(w: &mut Words, p: usize, r: Process)
    requires { p < 16 }
    ensures { Changes w.old w.new (λ s. with_record s p r) }
{
    let base = cells::PROCESSES + p * cells::PROCESS;
    w[base] = r.group;
    w[base + cells::TRUST] = r.trust;
    cells::put(w, base + cells::COUNTERS, &r.counters);
    cells::put(w, base + cells::SEQUENCES, &r.sequences);
    cells::put(w, base + cells::NEXTS, &r.next);
    cells::put(w, base + cells::DELIVERED, &r.delivered);
}
