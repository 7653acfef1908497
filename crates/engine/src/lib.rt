// The archive: the functions that it exports. Each but the version returns 0, or the number of the refusal of
// document 01; what else it answers goes out through a lent number. A refusal leaves everything that was lent as it was.
#![tactic(auto)]

ghost use Rattle.std.specs.Prelude.{◌≡◌, length};
ghost use Rattle.definitions.specs.General.{refusal_in, value_in};
ghost use Rattle.definitions.specs.Settle.{lowest_first, by_turns};
ghost use Rattle.definitions.specs.Words.{making_refusal, made_words, step_refusal, stepped_words, previewed_words, NewDeliveries, preview_reply, settle_reply, settled_words, log_start, length_reply, order_reply, awaited_reply, precedes_bytes, precedes_reply};
ghost use Rattle.definitions.specs.Journal.{needed_reply, write_refusal, written, count_reply, read_refusal, read_out};
ghost use Rattle.definitions.specs.Replay.{Counts, replay_reply, replayed_words};
ghost use Rattle.definitions.specs.Answers.{arrivals_in, done_in, kind_in, process_in, message_in, version};

// The version of the archive, as one number.
#[unsafe(no_mangle)]
pub extern "C" fn wt_version() -> u32
    ensures answer { result ≡ version }
{
    answers::of_version()
}

// The number of bytes of the journal of so many bytes of records: 0 or 16.
#[unsafe(no_mangle)]
pub extern "C" fn wt_journal_length(size: usize, needed: &mut u32) -> u32
    ensures answer { result ≡ refusal_in (needed_reply size) }
    ensures value { needed.new ≡ value_in (λ n. n) (needed_reply size) needed.old }
{
    telling::amount(journal::length_for(size), needed)
}

// Writes the journal of the records: 0, 16 or 17.
#[unsafe(no_mangle)]
pub extern "C" fn wt_journal_write(records: &[u8], out: &mut [u8]) -> u32
    ensures answer { result ≡ write_refusal (length records.now) (length out.old) }
    ensures bytes { out.new ≡ written records.now out.old }
{
    answers::outcome(journal::write(records, out))
}

// The number of records of a journal: 0, 13, 14 or 15.
#[unsafe(no_mangle)]
pub extern "C" fn wt_journal_count(journal: &[u8], count: &mut u32) -> u32
    ensures answer { result ≡ refusal_in (count_reply journal.now) }
    ensures value { count.new ≡ value_in (λ n. n) (count_reply journal.now) count.old }
{
    telling::amount(journal::count(journal), count)
}

// Reads a journal into its records: 0, 13, 14, 15 or 17.
#[unsafe(no_mangle)]
pub extern "C" fn wt_journal_read(journal: &[u8], records: &mut [u8]) -> u32
    ensures answer { result ≡ read_refusal journal.now (length records.old) }
    ensures bytes { records.new ≡ read_out journal.now records.old }
{
    answers::outcome(journal::read(journal, records))
}

// Makes the world of a setup record in the lent words: 0, 1 or 3.
#[unsafe(no_mangle)]
pub extern "C" fn wt_world_make(w: &mut [u16], setup: &[u8]) -> u32
    ensures answer { result ≡ making_refusal w.old setup.now }
    ensures words { w.new ≡ made_words w.old setup.now }
{
    answers::outcome(making::make(w, setup))
}

// Takes a step: 0, 1, 2 or 4 to 12.
#[unsafe(no_mangle)]
pub extern "C" fn wt_step(w: &mut [u16], step: &[u8]) -> u32
    ensures answer { result ≡ step_refusal w.old step.now }
    ensures words { w.new ≡ stepped_words w.old step.now }
{
    answers::outcome(calls::step(w, step))
}

// Shows on the second slice what a step would leave, and gives how many FIFO and how many causal deliveries it adds: 0, 1,
// 2 or 4 to 12.
#[unsafe(no_mangle)]
pub extern "C" fn wt_preview(
    w: &[u16],
    step: &[u8],
    second: &mut [u16],
    fifo: &mut u32,
    causal: &mut u32,
) -> u32
    ensures answer { result ≡ refusal_in (preview_reply w.now step.now second.old) }
    ensures words { second.new ≡ previewed_words w.now step.now second.old }
    ensures fifo { fifo.new ≡ value_in (λ (d : NewDeliveries). d.fifo_number) (preview_reply w.now step.now second.old) fifo.old }
    ensures causal { causal.new ≡ value_in (λ (d : NewDeliveries). d.causal_number) (preview_reply w.now step.now second.old) causal.old }
{
    telling::previewing(calls::preview(w, step, second), fifo, causal)
}

// Where the FIFO or the causal log of a process stands among the lent words, and its length: 0, 1, 2 or 5.
#[unsafe(no_mangle)]
pub extern "C" fn wt_world_log(
    w: &[u16],
    p: u32,
    causal: bool,
    start: &mut u32,
    items: &mut u32,
) -> u32
    ensures answer { result ≡ refusal_in (length_reply w.now p causal) }
    ensures start { start.new ≡ value_in (λ _. log_start p causal) (length_reply w.now p causal) start.old }
    ensures items { items.new ≡ value_in (λ n. n) (length_reply w.now p causal) items.old }
{
    match reading::log_length(w, p as usize, causal) {
        Ok(n) => {
            *start = logs::start(p as usize, causal) as u32;
            *items = n as u32;
            0
        }
        Err(r) => u32::from(r),
    }
}

// The order number of a message: 0, 1, 2 or 7.
#[unsafe(no_mangle)]
pub extern "C" fn wt_order(w: &[u16], m: u32, number: &mut u32) -> u32
    ensures answer { result ≡ refusal_in (order_reply w.now m) }
    ensures value { number.new ≡ value_in (λ n. n) (order_reply w.now m) number.old }
{
    telling::order(reading::order(w, m as usize), number)
}

// Whose message is awaited by a message in the FIFO log of a process and not in its causal log: kind 0, none; 1, that of a
// process and a message; 2, that of a process alone. What a kind does not have is left as lent: 0, 1, 2, 5, 7 or 18.
#[unsafe(no_mangle)]
pub extern "C" fn wt_awaited(
    w: &[u16],
    p: u32,
    m: u32,
    kind: &mut u32,
    of: &mut u32,
    awaited: &mut u32,
) -> u32
    ensures answer { result ≡ refusal_in (awaited_reply w.now p m) }
    ensures kind { kind.new ≡ value_in kind_in (awaited_reply w.now p m) kind.old }
    ensures of { of.new ≡ value_in (process_in of.old) (awaited_reply w.now p m) of.old }
    ensures awaited { awaited.new ≡ value_in (message_in awaited.old) (awaited_reply w.now p m) awaited.old }
{
    let answer = reading::awaited(w, p as usize, m as usize);
    telling::awaiting(answer, kind, of, awaited)
}

// Writes for each pair of messages 1 if the first precedes the second, else 0, and gives how many different messages they
// name: 0, 1, 2, 7 or 19.
#[unsafe(no_mangle)]
pub extern "C" fn wt_precedes(
    w: &[u16],
    pairs: &[u16],
    answers: &mut [u8],
    different: &mut u32,
) -> u32
    ensures answer { result ≡ refusal_in (precedes_reply w.now pairs.now answers.old) }
    ensures bytes { answers.new ≡ precedes_bytes w.now pairs.now answers.old }
    ensures different { different.new ≡ value_in (λ n. n) (precedes_reply w.now pairs.now answers.old) different.old }
{
    telling::amount(reading::precedes(w, pairs, answers), different)
}

// Makes at most `budget` arrivals; gives their number, and 1 for done or 0 for stopped: 0, 1 or 2.
#[unsafe(no_mangle)]
pub extern "C" fn wt_settle(w: &mut [u16], budget: u32, arrivals: &mut u32, done: &mut u32) -> u32
    ensures answer { result ≡ refusal_in (settle_reply lowest_first w.old budget) }
    ensures words { w.new ≡ settled_words lowest_first w.old budget }
    ensures arrivals { arrivals.new ≡ value_in arrivals_in (settle_reply lowest_first w.old budget) arrivals.old }
    ensures done { done.new ≡ value_in done_in (settle_reply lowest_first w.old budget) done.old }
{
    telling::settling(calls::settle(w, budget), arrivals, done)
}

// The same, the processes served in turn: 0, 1 or 2. An export of its own, as C calls it.
#[unsafe(no_mangle)]
pub extern "C" fn wt_settle_fair(
    w: &mut [u16],
    budget: u32,
    arrivals: &mut u32,
    done: &mut u32,
) -> u32
    ensures answer { result ≡ refusal_in (settle_reply by_turns w.old budget) }
    ensures words { w.new ≡ settled_words by_turns w.old budget }
    ensures arrivals { arrivals.new ≡ value_in arrivals_in (settle_reply by_turns w.old budget) arrivals.old }
    ensures done { done.new ≡ value_in done_in (settle_reply by_turns w.old budget) done.old }
{
    telling::settling(calls::settle_fair(w, budget), arrivals, done)
}

// Replays a journal; gives the number of records after its setup, and how many were refused: 0, 1, 3, 13, 14 or 15.
#[unsafe(no_mangle)]
pub extern "C" fn wt_replay(
    w: &mut [u16],
    journal: &[u8],
    steps: &mut u32,
    refused: &mut u32,
) -> u32
    ensures answer { result ≡ refusal_in (replay_reply w.old journal.now) }
    ensures words { w.new ≡ replayed_words w.old journal.now }
    ensures steps { steps.new ≡ value_in (λ (c : Counts). c.steps) (replay_reply w.old journal.now) steps.old }
    ensures refused { refused.new ≡ value_in (λ (c : Counts). c.refused) (replay_reply w.old journal.now) refused.old }
{
    telling::replaying(replaying::replay(w, journal), steps, refused)
}
