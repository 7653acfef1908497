// Whose message a message waits for: whether it waits at a process, the lowest process that falls short, its lowest message
// that is awaited, and the answer of the deliverable test.
#![tactic(auto)]

ghost use Rattle.std.specs.Prelude.{◌&&◌, ◌≡◌, ◌≤◌, ◌<◌, MatchOption, eqb, length, get_or};
ghost use Rattle.definitions.specs.General.{absent, bit};
ghost use Rattle.definitions.specs.World.{size, count, sender, mask, stamp, view};
ghost use Rattle.definitions.specs.Machine.{lowest_short, lowest_awaited, awaited};
ghost use Rattle.definitions.specs.Words.{is_waiting};
ghost use Rattle.definitions.specs.Answers.{awaited_of};
ghost use Rattle.bounds.specs.Bounds.{Bounds};

use cells::Words;
use definitions::Awaiting;
use masks::Set;

// Whether m is none of the items of a log.
fn lacks(log: &[u16], m: usize) -> bool
    ensures { result ≡ absent (length log.now) m (λ i. get_or log.now i 0) }
{
    let mut ok = true;
    for x in log {
        ok &= usize::from(*x) != m;
    }
    ok
}

// Whether message m is in the FIFO log of p and not in its causal log.
pub fn waits(w: &Words, p: usize, m: usize) -> bool
    requires { (p < 16) × Bounds (view w.now) }
    ensures { result ≡ is_waiting (view w.now) p m }
{
    let out = lacks(logs::part(w, p, false), m);
    !out & lacks(logs::part(w, p, true), m)
}

// The lowest process whose entry on m for the group of p falls short at p, if one does.
fn lowest_short(w: &Words, p: usize, m: usize) -> Option<usize>
    requires { (p < 16) × (m < 64) × Bounds (view w.now) }
    ensures { let n = lowest_short (view w.now) p m in
        MatchOption result (view w.now size ≤ n) (λ q. (q < view w.now size) × (q ≡ n)) }
{
    let process = cells::PROCESSES + p * cells::PROCESS;
    let message = cells::MESSAGES + m * cells::MESSAGE;
    let g = cells::word(w, process);
    let own = cells::word(w, message);
    for q in 0..cells::word(w, cells::SIZE) {
        let c = cells::word(w, message + cells::STAMPS + (g * 16 + q));
        let d = cells::word(w, process + cells::DELIVERED + q);
        if (q != own) & (d < c) {
            return Some(q);
        }
    }
    None
}

// Whether x is a message of q to group g whose own count there is next.
fn is_awaited(w: &Words, g: usize, q: usize, next: usize, x: usize) -> bool
    requires { (g < 8) × (q < 16) × (x < 64) }
    ensures { result ≡ (eqb (view w.now (sender x)) q && bit (view w.now (mask x)) g && eqb (view w.now (stamp x g q)) next) }
{
    let message = cells::MESSAGES + x * cells::MESSAGE;
    let of = cells::word(w, message) == q;
    let to = w[message + cells::MASK].has(g);
    of & to & (cells::word(w, message + cells::STAMPS + (g * 16 + q)) == next)
}

// The lowest message of q to the group of p that is next there, if one is.
fn lowest_awaited(w: &Words, p: usize, q: usize) -> Option<usize>
    requires { (p < 16) × (q < 16) × Bounds (view w.now) }
    ensures { let n = lowest_awaited (view w.now) p q in
        MatchOption result (view w.now count ≤ n) (λ x. (x < view w.now count) × (x ≡ n)) }
{
    let process = cells::PROCESSES + p * cells::PROCESS;
    let g = cells::word(w, process);
    let next = cells::word(w, process + cells::DELIVERED + q) + 1;
    for x in 0..cells::word(w, cells::COUNT) {
        if is_awaited(w, g, q, next, x) {
            return Some(x);
        }
    }
    None
}

// The answer of the deliverable test for m at p.
pub fn answer(w: &Words, p: usize, m: usize) -> Awaiting
    requires { (p < 16) × (m < 64) × Bounds (view w.now) }
    ensures { awaited_of result ≡ awaited (view w.now) p m }
{
    let Some(q) = lowest_short(w, p, m) else {
        return Awaiting::Nothing;
    };
    let Some(x) = lowest_awaited(w, p, q) else {
        return Awaiting::Process(q as u32);
    };
    Awaiting::Message(q as u32, x as u32)
}
