// Reads a journal on standard input, replays it, and writes the numbers of steps and of refused steps, then a line for
// each process; or the number of the journal's refusal. The output is gathered in 1,024 bytes, so that the program takes
// nothing from the heap. A read or a write that fails ends the program with its error, and nothing is written after it.
#![tactic(auto)]

ghost use Rattle.std.specs.Prelude.{◌≡◌, ◌≤◌, ◌<◌, IfOk, None, length};
ghost use Rattle.std.specs.Io.KnownBytes.{Keeps};
ghost use Rattle.definitions.specs.World.{size, view};
ghost use Rattle.keeps.specs.Keeps.{SoundWords};

use cells::Words;
use std::io::{Read, Write};
use std::{fmt, io};

// Room for the longest journal and a byte more, so that a longer input is seen to be one.
type Room = [u8; 65537];

// Reads until the buffer is full or the input ends, and says how many bytes that were. A while: a read may be short, and std's
// `read_to_end` would take more than there is room for.
fn read_full(rt: &HostRuntime, buf: &mut [u8]) -> io::Result<usize>
    ensures { IfOk result (λ n. n ≤ length buf.new) }
{
    let mut done: usize = 0;
    while done < buf.len() {
        let n = rt.stdin().read(&mut buf[done..])?;
        if n == 0 {
            break;
        }
        done += n;
    }
    Ok(done)
}

// What is to be written, gathered. No BufWriter: its buffer is on the heap, and once a write has failed it writes what is left
// when it is let go.
#[derive(Drop)]
struct Gathered<'a> {
    rt: &'a HostRuntime,
    bytes: [u8; 1024],
    len: usize,
    ghost fits: { len ≤ 1024 },
}

impl Write for Gathered<'_> {
    fn write(&mut self, text: &[u8]) -> io::Result<usize> {
        self.write_all(text)?;
        Ok(text.len())
    }

    // Writes what is gathered. Nothing of it is left, also where that fails. The first clause is std's, of a writer whose bytes no
    // contract knows.
    fn flush(&mut self) -> io::Result<()>
        ensures bytes { Keeps None None }
        ensures emptied { self.new.len ≡ 0 }
    {
        let len = self.len;
        self.len = 0;
        self.rt.write_all(&self.bytes[..len])
    }

    // Puts the text behind what is gathered, byte by byte, and writes what is gathered where there is no room for more.
    fn write_all(&mut self, text: &[u8]) -> io::Result<()> {
        for byte in text {
            if self.len == 1024 {
                self.flush()?;
            }
            self.bytes[self.len] = *byte;
            self.len += 1;
        }
        Ok(())
    }
}

// The items of a log, a space before each.
#[derive(Clone, Copy)]
struct Items<'a>(&'a [u16]);

impl fmt::Display for Items<'_> {
    fn fmt<W: fmt::Write>(&self, f: &mut fmt::Formatter<W>) -> fmt::Result {
        for m in self.0 {
            write!(f, " {m}")?;
        }
        Ok(())
    }
}

// Writes the line of process p: its number, whether it is up, its FIFO log, its causal log.
fn write_process(out: &mut impl Write, w: &Words, p: usize) -> io::Result<()>
    requires world { SoundWords w.now }
    requires p_in { p < view w.now size }
{
    let up = cells::word(w, cells::PROCESSES + p * cells::PROCESS + cells::UP) == 1;
    let state = if up { "up" } else { "down" };
    let fifo = Items(logs::part(w, p, false));
    let causal = Items(logs::part(w, p, true));
    writeln!(out, "{p} {state} f{fifo} c{causal}")
}

// Replays a journal into the words and writes what came of it.
fn run(out: &mut impl Write, w: &mut Words, journal: &[u8]) -> io::Result<()> {
    match replaying::replay(w, journal) {
        Err(r) => writeln!(out, "journal {}", u32::from(r)),
        Ok(counts) => {
            writeln!(out, "steps {} refused {}", counts.steps, counts.refused)?;
            for p in 0..cells::word(w, cells::SIZE) {
                write_process(out, w, p)?;
            }
            Ok(())
        }
    }
}

fn main(rt: HostRuntime) -> io::Result<()> {
    let mut w: Words = [0; 20480];
    let mut journal: Room = [0; 65537];
    let n = read_full(&rt, &mut journal)?;
    let mut out = Gathered {
        rt: &rt,
        bytes: [0; 1024],
        len: 0,
    };
    run(&mut out, &mut w, &journal[..n])?;
    out.flush()
}
