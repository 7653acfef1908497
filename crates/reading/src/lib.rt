// Words that are lent as a world, tested; the logs of a world and the order numbers of its messages read, whose message is
// awaited, and which messages came first. None of it asks anything of its caller.
#![tactic(auto)]

ghost use Rattle.std.specs.Prelude.{IfOk, ◌≡◌, ◌<◌};
ghost use Rattle.definitions.specs.Words.{needs_world, log_words, length_reply, order_reply, awaited_reply, precedes_bytes, precedes_reply};
ghost use Rattle.definitions.specs.Answers.{refusal_number, outcome_number, amount_reply, awaiting_reply};
ghost use Rattle.reading.specs.Tested.{present_refusal};

use cells::Words;
use definitions::{Awaiting, Refusal};

// The words as those of a sound world: 1, then 2.
pub fn tested(w: &[u16]) -> Result<&Words, Refusal>
    ensures answer { outcome_number result ≡ needs_world w.now 0 }
    ensures words { IfOk result (λ v. v.now ≡ w.now) }
{
    let Ok(words) = <&Words>::try_from(w) else {
        return Err(Refusal::WorldLength);
    };
    if soundness::test(words) {
        return Ok(words);
    }
    Err(Refusal::WorldUnsound)
}

// The words as those of a sound world with i below its word at a, the number of processes or of messages: 1, 2, then the
// refusal of what is absent.
fn present(w: &[u16], a: usize, i: usize, absent: Refusal) -> Result<&Words, Refusal>
    requires { a < 20480 }
    ensures answer { outcome_number result ≡ present_refusal w.now a i (refusal_number absent) }
    ensures words { IfOk result (λ v. v.now ≡ w.now) }
{
    let sound = tested(w)?;
    if cells::word(sound, a) <= i {
        return Err(absent);
    }
    Ok(sound)
}

// The length of the FIFO or the causal log of process p: 1, 2, then 5.
pub fn log_length(w: &[u16], p: usize, causal: bool) -> Result<usize, Refusal>
    ensures { amount_reply result ≡ length_reply w.now p causal }
{
    let words = present(w, cells::SIZE, p, Refusal::NoProcess)?;
    Ok(logs::items(words, p, causal))
}

// The FIFO or the causal log of process p, as a part of the world; empty where it is refused.
pub fn log(w: &[u16], p: usize, causal: bool) -> &[u16]
    ensures { result.now ≡ log_words w.now p causal }
{
    let Ok(words) = present(w, cells::SIZE, p, Refusal::NoProcess) else {
        return &w[0..0];
    };
    logs::part(words, p, causal)
}

// The order number of message m: 1, 2, then 7.
pub fn order(w: &[u16], m: usize) -> Result<u16, Refusal>
    ensures { amount_reply result ≡ order_reply w.now m }
{
    let words = present(w, cells::COUNT, m, Refusal::NoMessage)?;
    Ok(words[cells::MESSAGES + m * cells::MESSAGE + cells::ORDER])
}

// Whose message the message m waits for at process p: 1, 2, 5, 7, then 18.
pub fn awaited(w: &[u16], p: usize, m: usize) -> Result<Awaiting, Refusal>
    ensures { awaiting_reply result ≡ awaited_reply w.now p m }
{
    let words = present(w, cells::SIZE, p, Refusal::NoProcess)?;
    if cells::word(words, cells::COUNT) <= m {
        return Err(Refusal::NoMessage);
    }
    if awaiting::waits(words, p, m) {
        return Ok(awaiting::answer(words, p, m));
    }
    Err(Refusal::NotWaiting)
}

// Writes for each pair of messages whether the first precedes the second, and gives how many different ones they name: 1, 2,
// 19, then 7.
pub fn precedes(w: &[u16], pairs: &[u16], answers: &mut [u8]) -> Result<usize, Refusal>
    ensures answer { amount_reply result ≡ precedes_reply w.now pairs.now answers.old }
    ensures bytes { answers.new ≡ precedes_bytes w.now pairs.now answers.old }
{
    let words = tested(w)?;
    if !comparing::good_lengths(pairs.len(), answers.len()) {
        return Err(Refusal::PairsLength);
    }
    comparing::compare(words, pairs, answers)
}
