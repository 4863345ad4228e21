// Prints the verdict on each cell of a fixed sample, with the bits of its volume. stdin has the cells, stdout what the lifted Rust gave;
// both are made by `oracle/sample`. The first word of stdin says how many cells follow; a cell is 13 words: the least volume, and the
// coordinates of its four points.
#![tactic(auto)]

use std::io;
use volume::{Corners, Point, Verdict};

fn float(tape: &[u32], at: usize, i: usize) -> f32 {
    float32::to_f32(tape::word(tape, at, i))
}

// The point i of the cell at a place.
fn point(tape: &[u32], at: usize, i: usize) -> Point {
    let from = tape::onward(tape, at, i);
    Point {
        x: float(tape, from, 1),
        y: float(tape, from, 2),
        z: float(tape, from, 3),
    }
}

fn verdict(tape: &[u32], at: usize) -> Verdict {
    let corners = Corners {
        a: point(tape, at, 0),
        b: point(tape, at, 3),
        c: point(tape, at, 6),
        d: point(tape, at, 9),
    };
    volume::verdict_on(corners, float(tape, at, 0))
}

fn tell(rt: &impl Print, verdict: Verdict) -> io::Result<()> {
    let word = match verdict {
        Verdict::Kept(_) => "kept",
        Verdict::Exchanged(_) => "exchanged",
        Verdict::Dropped(_) => "dropped",
    };
    let bits = volume::volume_bits(verdict);
    println!(rt; "{word} {bits:08x}")
}

fn tell_all(rt: &impl Print, tape: &[u32]) -> io::Result<()> {
    let cells = tape::word(tape, 0, 0);
    let mut at: usize = 1;
    for _ in 0..cells {
        tell(rt, verdict(tape, at))?;
        at = tape::onward(tape, at, 13);
    }
    Ok(())
}

fn main(rt: HostRuntime) -> io::Result<()> {
    let mut bytes = [0u8; 16_384];
    tape::read_full(&mut rt.reader(), &mut bytes)?;
    let mut tape = [0u32; 4_096];
    words::get_words(&bytes, 0, false, &mut tape);
    tell_all(&rt, &tape)
}
