// Letters sorted by who they go to, beside the words: for each message and process the set of its places, 16 k + q for
// kind k from q; for each process the set of messages with such a place; and the set of the processes with such a message.
// One joins, one leaves, all of one place are noted; who is served next.
#![tactic(auto)]

ghost use Rattle.std.specs.Prelude.{◌≡◌, ◌≤◌, ◌<◌, MatchOption};
ghost use Rattle.queues.specs.Queues.{Places, Queues, joined, parted, noted, served_of};

use masks::Set;

// The numbers of the queues.
pub type Table = [u64; 1041];

// Where the sets of messages begin, and where the set of processes is.
pub const MESSAGES: usize = 1024;

pub const WAITING: usize = 1040;

// The letter of message m at a place joins those to p.
fn join(a: &mut Table, m: usize, place: usize, p: usize)
    requires { (m < 64) × (place < 48) × (p < 16) }
    ensures { (f : Places) → Queues f a.old → Queues (joined f m place p) a.new }
{
    let places = a[m * 16 + p].join(place);
    let messages = a[MESSAGES + p].join(m);
    let waiting = a[WAITING].join(p);
    a[m * 16 + p] = places;
    a[MESSAGES + p] = messages;
    a[WAITING] = waiting;
}

// The letter of message m at a place leaves those to p, the message with its last place, and p with its last message.
pub fn leave(a: &mut Table, m: usize, place: usize, p: usize)
    requires { (m < 64) × (place < 48) × (p < 16) }
    ensures { (f : Places) → Queues f a.old → Queues (parted f m place p) a.new }
{
    let places = a[m * 16 + p].drop(place);
    a[m * 16 + p] = places;
    if places != 0 {
        return;
    }
    let messages = a[MESSAGES + p].drop(m);
    a[MESSAGES + p] = messages;
    if messages != 0 {
        return;
    }
    a[WAITING] = a[WAITING].drop(p);
}

// The letters of message m at a place join those to each receiver.
pub fn note(a: &mut Table, m: usize, place: usize, receivers: u16)
    requires { (m < 64) × (place < 48) }
    ensures { (f : Places) → Queues f a.old → Queues (noted f m place receivers) a.new }
{
    let mut left = receivers;
    while left != 0 {
        let p = left.lowest();
        left = left.drop(p);
        join(a, m, place, p);
    }
}

// The first of the waiting processes from a turn on, or else the first of all; none where none waits.
pub fn served(waiting: u64, turn: usize) -> Option<usize>
    requires { turn ≤ 16 }
    ensures { MatchOption result (64 ≤ served_of waiting turn) (λ p. (p < 64) × (p ≡ served_of waiting turn)) }
{
    let ahead = (waiting >> turn).lowest();
    let p = if ahead < 64 {
        turn + ahead
    } else {
        waiting.lowest()
    };
    if p < 64 { Some(p) } else { None }
}
