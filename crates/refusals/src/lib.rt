// Which steps are refused, and why: the lowest number first. Nothing is changed.
#![tactic(auto)]

ghost use Rattle.std.specs.Prelude.{◌≡◌, not, ◌&&◌, ◌||◌, ℕ, ◌^◌, ◌≤◌, ◌<◌, ltb};
ghost use Rattle.definitions.specs.General.{pick, bit, only};
ghost use Rattle.definitions.specs.World.{view, has_group};
ghost use Rattle.definitions.specs.Steps.{multicasts, arrives, loses, trusts, crashes, good_mask, is_up, in_flight, refusal};
ghost use Rattle.definitions.specs.Answers.{refusal_number, outcome_number};
ghost use Rattle.bounds.specs.Bounds.{Bounds};
ghost use Rattle.refusals.specs.Refused.{process_refusal, operands_refusal};

use cells::{Letter, Words};
use definitions::Refusal;
use masks::Set;

// Whether some process is of group g.
fn is_group(w: &Words, g: usize) -> bool
    requires { Bounds (view w.now) }
    ensures { result ≡ has_group (view w.now) g }
{
    let n = cells::word(w, cells::SIZE);
    for p in 0..n {
        if cells::word(w, cells::PROCESSES + p * cells::PROCESS) == g {
            return true;
        }
    }
    false
}

// Whether group g exists, if the mask names it.
fn is_named_well(w: &Words, groups: u16, g: usize) -> bool
    requires g_in { g < 16 }
    requires bounds { Bounds (view w.now) }
    ensures { result ≡ (not (bit groups g) || has_group (view w.now) g) }
{
    !groups.has(g) || is_group(w, g)
}

// Whether the mask names only groups that exist.
fn are_groups(w: &Words, groups: u16) -> bool
    requires { Bounds (view w.now) }
    ensures { result ≡ only 8 groups (has_group (view w.now)) }
{
    for g in 0..8 {
        if !is_named_well(w, groups, g) {
            return false;
        }
    }
    true
}

// Whether a message can go to the groups of the mask.
#[tactic(auto, unfolding(definitions::specs::Steps::good_mask))]
fn is_good_mask(w: &Words, groups: u16) -> bool
    requires { Bounds (view w.now) }
    ensures { result ≡ good_mask (view w.now) groups }
{
    groups != 0 && groups < 256 && are_groups(w, groups)
}

// Whether process p is up.
fn is_live(w: &Words, p: usize) -> bool
    requires { p < 16 }
    ensures { result ≡ is_up (view w.now) p }
{
    cells::word(w, cells::PROCESSES + p * cells::PROCESS + cells::UP) == 1
}

// Whether both ends of a letter are up.
fn are_live(w: &Words, q: usize, p: usize) -> bool
    requires q_in { q < 16 }
    requires p_in { p < 16 }
    ensures { result ≡ (is_up (view w.now) q && is_up (view w.now) p) }
{
    is_live(w, q) && is_live(w, p)
}

// Whether the letter is in flight.
fn flies(w: &Words, letter: Letter) -> bool
    requires kind_in { letter.kind < 3 }
    requires message_in { letter.message < 64 }
    requires from_in { letter.from < 16 }
    requires to_in { letter.to < 16 }
    ensures { result ≡ in_flight (view w.now) letter.kind letter.message letter.from letter.to }
{
    cells::letters(w, letter.message, letter.kind, letter.from).has(letter.to)
}

// Whether a trust set names only processes below n.
#[tactic(auto, using(crate::specs::Refused::below_power))]
fn are_processes(set: u16, n: usize) -> bool
    requires { n ≤ 16 }
    ensures { result ≡ ltb set (2 ^ n) }
{
    usize::from(set) >> n == 0
}

// The process and the mask of a multicast or trust step: 5, the refusal of a mask that is not good, then 9.
fn of_process(w: &Words, p: usize, good: bool, mask: Refusal) -> Result<(), Refusal>
    requires { Bounds (view w.now) }
    ensures { outcome_number result ≡ process_refusal (view w.now) p good (refusal_number mask) }
{
    if cells::word(w, cells::SIZE) <= p {
        return Err(Refusal::NoProcess);
    }
    if !good {
        return Err(mask);
    }
    if !is_live(w, p) {
        return Err(Refusal::Down);
    }
    Ok(())
}

// A multicast by p to the groups of a mask, with any order number.
#[tactic(auto, unfolding(definitions::specs::Steps::refusal))]
pub fn of_multicast(w: &Words, p: usize, groups: u16) -> Result<(), Refusal>
    requires { Bounds (view w.now) }
    ensures { (o : ℕ) → outcome_number result ≡ refusal (view w.now) (multicasts p groups o) }
{
    let good = is_good_mask(w, groups);
    of_process(w, p, good, Refusal::BadMask)?;
    if 64 <= cells::word(w, cells::COUNT) {
        return Err(Refusal::Full);
    }
    Ok(())
}

// A trust step of p.
#[tactic(auto, unfolding(definitions::specs::Steps::refusal))]
pub fn of_trust(w: &Words, p: usize, set: u16) -> Result<(), Refusal>
    requires { Bounds (view w.now) }
    ensures { outcome_number result ≡ refusal (view w.now) (trusts p set) }
{
    let good = are_processes(set, cells::word(w, cells::SIZE));
    of_process(w, p, good, Refusal::BadTrust)
}

// A crash of p.
#[tactic(auto, unfolding(definitions::specs::Steps::refusal))]
pub fn of_crash(w: &Words, p: usize) -> Result<(), Refusal>
    requires { Bounds (view w.now) }
    ensures { outcome_number result ≡ refusal (view w.now) (crashes p) }
{
    if cells::word(w, cells::SIZE) <= p {
        return Err(Refusal::NoProcess);
    }
    if !is_live(w, p) {
        return Err(Refusal::Down);
    }
    Ok(())
}

// The operands of an arrival or a loss: 4, 5, then 7.
fn of_operands(w: &Words, letter: Letter) -> Result<(), Refusal>
    ensures { outcome_number result ≡ operands_refusal (view w.now) letter.kind letter.message letter.from letter.to }
{
    if 2 < letter.kind {
        return Err(Refusal::Malformed);
    }
    let n = cells::word(w, cells::SIZE);
    if n <= letter.from {
        return Err(Refusal::NoProcess);
    }
    if n <= letter.to {
        return Err(Refusal::NoProcess);
    }
    if cells::word(w, cells::COUNT) <= letter.message {
        return Err(Refusal::NoMessage);
    }
    Ok(())
}

// The loss of a letter, or else its arrival. Only an arrival asks that the receiver is up, only a loss that an
// end is down.
#[tactic(auto, unfolding(definitions::specs::Steps::refusal))]
pub fn of_letter(w: &Words, letter: Letter, lost: bool) -> Result<(), Refusal>
    requires { Bounds (view w.now) }
    ensures { outcome_number result ≡ refusal (view w.now) (pick lost (loses letter.kind letter.message letter.from letter.to) (arrives letter.kind letter.message letter.from letter.to)) }
{
    of_operands(w, letter)?;
    if !(lost | is_live(w, letter.to)) {
        return Err(Refusal::Down);
    }
    if !flies(w, letter) {
        return Err(Refusal::NotInFlight);
    }
    if lost & are_live(w, letter.from, letter.to) {
        return Err(Refusal::BothUp);
    }
    Ok(())
}
