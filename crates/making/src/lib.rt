// Making a world from a setup record.
#![tactic(auto)]

ghost use Rattle.std.specs.Prelude.{true, ◌≡◌, ◌-◌, ◌^◌, ◌≤◌, ◌<◌, ltb};
ghost use Rattle.definitions.specs.General.{pick};
ghost use Rattle.definitions.specs.World.{encode};
ghost use Rattle.definitions.specs.Setup.{good_setup, made};
ghost use Rattle.definitions.specs.Words.{making_refusal, made_words};
ghost use Rattle.definitions.specs.Answers.{outcome_number};
ghost use Rattle.world.specs.Layout.{Changes};
ghost use Rattle.setup.specs.Groups.{group_in};
ghost use Rattle.making.specs.Begun.{begun, first_nexts, begin_process};

use cells::Words;
use definitions::Refusal;
use records::Process;

// The mask of all n processes.
fn everybody(n: usize) -> u16
    requires { n ≤ 16 }
    ensures { result ≡ 2 ^ n - 1 }
{
    let all: u32 = 1 << n;
    (all - 1) as u16
}

// The next number of process q in a fresh world of n.
fn first_next(q: usize, n: usize) -> u16
    ensures { result ≡ pick (ltb q n) 1 0 }
{
    u16::from(q < n)
}

// The next numbers of a fresh process: 1 for each of the n processes.
fn nexts(n: usize) -> [u16; 16]
    ensures { result ≡ first_nexts n }
{
    let mut a = [0u16; 16];
    for (q, x) in a.iter_mut().enumerate() {
        *x = first_next(q, n);
    }
    a
}

// Writes process p of a fresh world of n: its record, and that it is up.
fn begin(w: &mut Words, p: usize, n: usize, group: u16)
    requires { (p < 16) × (n ≤ 16) }
    ensures { Changes w.old w.new (λ s. begin_process s p n group) }
{
    let fresh = Process {
        group,
        trust: everybody(n),
        counters: [0u16; 128],
        sequences: [0u16; 8],
        next: nexts(n),
        delivered: [0u16; 16],
    };
    records::store(w, p, fresh);
    w[cells::PROCESSES + p * cells::PROCESS + cells::UP] = 1;
}

// Writes every process of a fresh world of n.
fn begin_all(w: &mut Words, n: usize, bits: u64)
    requires { (n ≤ 16) × (w.old ≡ encode (begun n (group_in bits) 0)) }
    ensures { w.new ≡ encode (begun n (group_in bits) n) }
{
    for p in 0..n {
        begin(w, p, n, setup::group_of(bits, p) as u16);
    }
}

// Writes the fresh world of a good setup record over any words.
fn fill(w: &mut Words, bytes: &[u8; 8])
    requires { good_setup bytes.now ≡ true }
    ensures { w.new ≡ encode (made bytes.now) }
{
    let n = usize::from(bytes[1]);
    let bits = setup::bits(bytes);
    w.fill(0);
    w[0] = n as u16;
    begin_all(w, n, bits);
}

// Makes the world of a setup record in the lent words: 1, then 3.
pub fn make(w: &mut [u16], bytes: &[u8]) -> Result<(), Refusal>
    ensures answer { outcome_number result ≡ making_refusal w.old bytes.now }
    ensures words { w.new ≡ made_words w.old bytes.now }
{
    let Some(w) = w.as_mut_array() else {
        return Err(Refusal::WorldLength);
    };
    let Ok(bytes) = <&[u8; 8]>::try_from(bytes) else {
        return Err(Refusal::BadSetup);
    };
    if !setup::good(bytes) {
        return Err(Refusal::BadSetup);
    }
    fill(w, bytes);
    Ok(())
}
