// What the answer of a call tells the caller: its number is returned, and its values go out through lent numbers, which a
// refusal leaves as they were.
#![tactic(auto)]

ghost use Rattle.std.specs.Prelude.{◌≡◌};
ghost use Rattle.definitions.specs.General.{refusal_in, value_in};
ghost use Rattle.definitions.specs.Words.{NewDeliveries};
ghost use Rattle.definitions.specs.Replay.{Counts};
ghost use Rattle.definitions.specs.Answers.{amount_reply, awaiting_reply, previewing_reply, settling_reply, replaying_reply, arrivals_in, done_in, kind_in, process_in, message_in};
ghost use Rattle.telling.specs.Telling.{Small};

use definitions::{Awaiting, Previewing, Refusal, Replaying, Settling};

// How many.
pub fn amount(count: Result<usize, Refusal>, value: &mut u32) -> u32
    requires { Small (λ n. n) (amount_reply count) }
    ensures answer { result ≡ refusal_in (amount_reply count) }
    ensures value { value.new ≡ value_in (λ n. n) (amount_reply count) value.old }
{
    match count {
        Ok(n) => {
            *value = n as u32;
            0
        }
        Err(r) => u32::from(r),
    }
}

// An order number. Not `amount` at another type: a number of 16 bits asks nothing of its caller.
pub fn order(order: Result<u16, Refusal>, number: &mut u32) -> u32
    ensures answer { result ≡ refusal_in (amount_reply order) }
    ensures value { number.new ≡ value_in (λ n. n) (amount_reply order) number.old }
{
    match order {
        Ok(n) => {
            *number = u32::from(n);
            0
        }
        Err(r) => u32::from(r),
    }
}

// Whose message is awaited: kind 0, none; 1, that of a process and a message; 2, that of a process alone. What a kind does
// not have is left as lent.
pub fn awaiting(
    answer: Result<Awaiting, Refusal>,
    kind: &mut u32,
    of: &mut u32,
    awaited: &mut u32,
) -> u32
    ensures answer { result ≡ refusal_in (awaiting_reply answer) }
    ensures kind { kind.new ≡ value_in kind_in (awaiting_reply answer) kind.old }
    ensures of { of.new ≡ value_in (process_in of.old) (awaiting_reply answer) of.old }
    ensures awaited { awaited.new ≡ value_in (message_in awaited.old) (awaiting_reply answer) awaited.old }
{
    match answer {
        Ok(Awaiting::Nothing) => {
            *kind = 0;
            0
        }
        Ok(Awaiting::Message(q, x)) => {
            *kind = 1;
            *of = q;
            *awaited = x;
            0
        }
        Ok(Awaiting::Process(q)) => {
            *kind = 2;
            *of = q;
            0
        }
        Err(r) => u32::from(r),
    }
}

// How many FIFO and how many causal deliveries a step adds.
pub fn previewing(answer: Result<Previewing, Refusal>, fifo: &mut u32, causal: &mut u32) -> u32
    ensures answer { result ≡ refusal_in (previewing_reply answer) }
    ensures fifo { fifo.new ≡ value_in (λ (d : NewDeliveries). d.fifo_number) (previewing_reply answer) fifo.old }
    ensures causal { causal.new ≡ value_in (λ (d : NewDeliveries). d.causal_number) (previewing_reply answer) causal.old }
{
    match answer {
        Ok(added) => {
            *fifo = added.fifo;
            *causal = added.causal;
            0
        }
        Err(r) => u32::from(r),
    }
}

// The arrivals of a settle, and 1 for done or 0 for stopped.
pub fn settling(answer: Result<Settling, Refusal>, arrivals: &mut u32, done: &mut u32) -> u32
    ensures answer { result ≡ refusal_in (settling_reply answer) }
    ensures arrivals { arrivals.new ≡ value_in arrivals_in (settling_reply answer) arrivals.old }
    ensures done { done.new ≡ value_in done_in (settling_reply answer) done.old }
{
    match answer {
        Ok(Settling::Done(n)) => {
            *arrivals = n;
            *done = 1;
            0
        }
        Ok(Settling::Stopped(n)) => {
            *arrivals = n;
            *done = 0;
            0
        }
        Err(r) => u32::from(r),
    }
}

// The steps of a replay, and how many of them were refused.
pub fn replaying(answer: Result<Replaying, Refusal>, steps: &mut u32, refused: &mut u32) -> u32
    requires { Small (λ (c : Counts). c.steps) (replaying_reply answer) × Small (λ (c : Counts). c.refused) (replaying_reply answer) }
    ensures answer { result ≡ refusal_in (replaying_reply answer) }
    ensures steps { steps.new ≡ value_in (λ (c : Counts). c.steps) (replaying_reply answer) steps.old }
    ensures refused { refused.new ≡ value_in (λ (c : Counts). c.refused) (replaying_reply answer) refused.old }
{
    match answer {
        Ok(counts) => {
            *steps = counts.steps as u32;
            *refused = counts.refused as u32;
            0
        }
        Err(r) => u32::from(r),
    }
}
