// Whether every word of a process's block, and of a message's block, may stand there.
#![tactic(auto)]

ghost use Rattle.std.specs.Prelude.{◌≡◌, true, ◌+◌, ◌*◌, ◌≤◌, ◌<◌, length};
ghost use Rattle.definitions.specs.World.{view};
ghost use Rattle.sets.specs.Lowest.{Has};
ghost use Rattle.sets.specs.Members.{Members, item_of};
ghost use Rattle.sets.specs.Powers.{Low};
ghost use Rattle.regions.specs.Runs.{fine_run};
ghost use Rattle.blocks.specs.Known.{Ready, Tables, Lengths};
ghost use Rattle.blocks.specs.Logs.{tidy_logs, LogsOf};
ghost use Rattle.blocks.specs.Process.{front_fine, processes_fine};
ghost use Rattle.blocks.specs.Places.{outside, Stands, Rows};
ghost use Rattle.blocks.specs.Message.{messages_fine};

use cells::Words;
use masks::Set;

// What the soundness test knows before the blocks: how many processes and messages there are, the limits of what is
// counted, the addressees and the sender of each message, and the bits of a set. That they are those of the words are clauses,
// `Ready` and `Tables`, and no ghost field: the words are lent beside it, and two tables by message are read at one place each.
#[derive(Drop)]
pub struct Known {
    pub size: usize,
    pub count: usize,
    pub limits: [u16; 280],
    pub addressees: [u16; 64],
    pub from: [u32; 64],
    pub bits: [u64; 64],
}

// Whether the trust set, the counters, the flag and the logs' lengths of process p are within their limits.
fn front(w: &Words, p: usize, t: &Known) -> bool
    requires ready { Ready w.now t.now }
    requires p_in { p < t.now.size }
    ensures { result ≡ front_fine (view w.now) p }
{
    let at = cells::PROCESSES + p * cells::PROCESS;
    let length = cells::word(w, at + cells::FIFO_LENGTH);
    let counters = &w[at + cells::COUNTERS..at + cells::COUNTERS + 136];
    let delivered = &w[at + cells::DELIVERED..at + cells::DELIVERED + 16];
    (cells::word(w, at + cells::TRUST) >> t.size == 0)
        & ranges::within(counters, &t.limits[..136])
        & ranges::within(delivered, &t.limits[136..152])
        & (w[at + cells::UP] <= 1)
        & (length <= t.count)
        & (cells::word(w, at + cells::CAUSAL_LENGTH) <= length)
}

// Whether the items of p's logs are below 64, with zeros past the logs' ends.
fn tidy(w: &Words, p: usize, t: &Known) -> bool
    requires ready { Ready w.now t.now }
    requires p_in { p < t.now.size }
    requires lengths { Lengths (view w.now) p }
    ensures { result ≡ tidy_logs (view w.now) p }
{
    let at = cells::PROCESSES + p * cells::PROCESS;
    let f = cells::word(w, at + cells::FIFO_LENGTH);
    let c = cells::word(w, at + cells::CAUSAL_LENGTH);
    let fifo = &w[at + cells::FIFO..at + cells::FIFO + 64];
    let causal = &w[at + cells::CAUSAL..at + cells::CAUSAL + 64];
    ranges::within(fifo, &t.limits[216 - f..280 - f])
        & ranges::within(causal, &t.limits[216 - c..280 - c])
}

// The messages of the two logs of process p, where these list distinct messages, the FIFO log such as are addressed to p,
// the causal log members of the FIFO log, and next agrees with the FIFO log.
#[derive(Drop)]
struct Listed {
    fifo: u64,
    causal: u64,
}

fn logs(w: &Words, p: usize, t: &Known) -> Option<Listed>
    requires ready { Ready w.now t.now }
    requires tables { Tables (view w.now) t.now }
    requires p_in { p < t.now.size }
    requires lengths { Lengths (view w.now) p }
    requires tidied { tidy_logs (view w.now) p ≡ true }
    ensures { LogsOf (view w.now) p result }
{
    let at = cells::PROCESSES + p * cells::PROCESS;
    let f = cells::word(w, at + cells::FIFO_LENGTH);
    let c = cells::word(w, at + cells::CAUSAL_LENGTH);
    let log = &w[at + cells::FIFO..at + cells::FIFO + f];
    let first = logtest::pass(log, &t.addressees, &t.from, &t.bits);
    let fifo = first.set;
    let causal = sets::of(&w[at + cells::CAUSAL..at + cells::CAUSAL + c], &t.bits);
    let good = (fifo.count() == f)
        & first.all.has(p)
        & (causal.count() == c)
        & (causal & fifo == causal)
        & regions::nexts(w, at + cells::NEXTS, t.size, &first.counts);
    if good {
        Some(Listed { fifo, causal })
    } else {
        None
    }
}

// The places of the items of a log that are not in the set.
fn places(log: &[u16], set: u64) -> u64
    requires low { Low log.now }
    requires few { length log.now ≤ 64 }
    ensures { Has result (outside log.now set) }
{
    let mut waiting: u64 = 0;
    for (i, m) in log.iter().enumerate() {
        waiting = waiting.join_if(i, !set.has(usize::from(*m)));
    }
    waiting
}

// The same, where the items are those of another set; mostly the two are one, and there is no such place.
fn waiting(log: &[u16], items: u64, set: u64) -> u64
    requires low { Low log.now }
    requires few { length log.now ≤ 64 }
    requires members { Members items (length log.now) (item_of log.now) }
    ensures { Has result (outside log.now set) }
{
    if items == set {
        return 0;
    }
    places(log, set)
}

// The messages of the FIFO log of process p, and the places of that log whose message is not in the causal log, where the
// block of p may stand.
#[derive(Drop)]
struct Standing {
    fifo: u64,
    waiting: u64,
}

fn process(w: &Words, p: usize, t: &Known) -> Option<Standing>
    requires ready { Ready w.now t.now }
    requires tables { Tables (view w.now) t.now }
    requires p_in { p < t.now.size }
    ensures { Stands (view w.now) p result }
{
    if !front(w, p, t) {
        return None;
    }
    if !tidy(w, p, t) {
        return None;
    }
    let Listed { fifo, causal } = logs(w, p, t)?;
    if !regions::rows(w, p, &t.addressees) {
        return None;
    }
    let at = cells::PROCESSES + p * cells::PROCESS;
    let f = cells::word(w, at + cells::FIFO_LENGTH);
    let log = &w[at + cells::FIFO..at + cells::FIFO + f];
    Some(Standing {
        fifo,
        waiting: waiting(log, fifo, causal),
    })
}

// Whether the blocks of all processes may stand; and then their part of the index is left in x.
pub fn processes(w: &Words, t: &Known, x: &mut index::Table) -> bool
    requires ready { Ready w.now t.now }
    requires tables { Tables (view w.now) t.now }
    ensures good { result ≡ processes_fine (view w.now) t.now.size }
    ensures rows { Rows (view w.now) t.now.size result x.old x.new }
{
    for p in 0..t.size {
        let Some(s) = process(w, p, t) else {
            return false;
        };
        x[index::LISTED + p] = s.fifo;
        x[index::OPEN + p] = s.waiting;
    }
    true
}

// Whether the letters of message m in flight are only from its origins to its addressees; mostly there are
// none.
fn flight(w: &Words, m: usize, t: &Known) -> bool
    requires ready { Ready w.now t.now }
    requires m_in { m < t.now.count }
    ensures { result ≡ fine_run (view w.now) (6867 + m * 187 + 138) 48 }
{
    let at = cells::MESSAGES + m * cells::MESSAGE;
    if ranges::zeros(&w[at + cells::FLIGHT..at + cells::FLIGHT + 48]) {
        return true;
    }
    let to = t.addressees[m];
    regions::letters(w, at + cells::FLIGHT, 0u16.join(cells::word(w, at)), to)
        & regions::letters(w, at + cells::FLIGHT + 16, to, to)
        & regions::letters(w, at + cells::FLIGHT + 32, to, to)
}

// Whether the block of message m may stand; any order number may.
fn message(w: &Words, m: usize, t: &Known) -> bool
    requires ready { Ready w.now t.now }
    requires m_in { m < t.now.count }
    ensures { result ≡ fine_run (view w.now) (6867 + m * 187) 187 }
{
    let at = cells::MESSAGES + m * cells::MESSAGE;
    let stamps = &w[at + cells::STAMPS..at + cells::STAMPS + 136];
    ranges::within(stamps, &t.limits[..136]) & flight(w, m, t)
}

// Whether the blocks of all messages may stand.
pub fn messages(w: &Words, t: &Known) -> bool
    requires { Ready w.now t.now }
    ensures { result ≡ messages_fine (view w.now) t.now.count }
{
    let mut ok = true;
    for m in 0..t.count {
        ok &= message(w, m, t);
    }
    ok
}
