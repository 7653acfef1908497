// Which of two messages came first, for many pairs: their lengths, the messages that they name, the byte of a pair, and all
// bytes. The pairs are judged before a byte is written.
#![tactic(auto)]

ghost use Rattle.std.specs.Prelude.{true, ◌≡◌, ◌*◌, ◌<◌, length};
ghost use Rattle.definitions.specs.General.{needs, reply, tabulate};
ghost use Rattle.definitions.specs.World.{count, view};
ghost use Rattle.definitions.specs.Words.{precedes_byte, first_of, second_of, good_lengths, all_named, different, precedes_bytes, precedes_reply};
ghost use Rattle.definitions.specs.Answers.{amount_reply};
ghost use Rattle.keeps.specs.Keeps.{SoundWords};

use definitions::Refusal;
use masks::Set;

// Whether so many words can be pairs, and so many bytes their answers.
pub fn good_lengths(words: usize, bytes: usize) -> bool
    ensures { result ≡ good_lengths words bytes }
{
    (words % 2 == 0) & (words <= 512) & (bytes == words / 2)
}

// How many different messages the words name: 7. A word is put into the set once it is known to name one.
fn different(w: &[u16], pairs: &[u16]) -> Result<usize, Refusal>
    requires { SoundWords w.now }
    ensures { amount_reply result ≡ reply (needs 7 (all_named (view w.now) pairs.now) 0) (different (view w.now) pairs.now) }
{
    let count = cells::word(w, cells::COUNT);
    let mut set: u64 = 0;
    for i in 0..pairs.len() {
        let m = cells::word(pairs, i);
        if count <= m {
            return Err(Refusal::NoMessage);
        }
        set = set.join(m);
    }
    Ok(set.count())
}

// The byte of x and m: x's own count, in the lowest of its groups, against m's.
fn byte(w: &[u16], x: usize, m: usize) -> u8
    requires { SoundWords w.now × (x < view w.now count) × (x < 64) × (m < 64) }
    ensures { result ≡ precedes_byte (view w.now) x m }
{
    let first = cells::MESSAGES + x * cells::MESSAGE;
    let second = cells::MESSAGES + m * cells::MESSAGE;
    let g = w[first + cells::MASK].lowest();
    let entry = g * 16 + cells::word(w, first);
    let most = w[second + cells::STAMPS + entry];
    u8::from((w[first + cells::STAMPS + entry] <= most) & (x != m))
}

// Writes the byte of each pair.
fn answer(w: &[u16], pairs: &[u16], answers: &mut [u8])
    requires { SoundWords w.now × (all_named (view w.now) pairs.now ≡ true) × (length pairs.now ≡ length answers.old * 2) }
    ensures { answers.new ≡ tabulate (length answers.old) (λ i. precedes_byte (view w.now) (first_of pairs.now i) (second_of pairs.now i)) }
{
    for i in 0..answers.len() {
        answers[i] = byte(w, cells::word(pairs, i * 2), cells::word(pairs, i * 2 + 1));
    }
}

// Writes the byte of each pair and gives how many different messages they name, unless one names none: 7.
pub fn compare(w: &[u16], pairs: &[u16], answers: &mut [u8]) -> Result<usize, Refusal>
    requires { SoundWords w.now × (good_lengths (length pairs.now) (length answers.old) ≡ true) }
    ensures answer { amount_reply result ≡ precedes_reply w.now pairs.now answers.old }
    ensures bytes { answers.new ≡ precedes_bytes w.now pairs.now answers.old }
{
    let n = different(w, pairs)?;
    answer(w, pairs, answers);
    Ok(n)
}
