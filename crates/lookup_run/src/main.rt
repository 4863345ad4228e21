// Asks the crate `lookup` what the lifted Rust's `covering_leaf` and `has_finer_vertex` were asked: stdin is a tape (crate `tape`), stdout
// what is printed where nothing differs, but for answers that were changed on purpose. Both are made by `oracle/sample`.
// A call of this tape is an octree: word 1 of its head is 0 where `covering_leaf` is asked, else 1; from 2 on stand the roots along the axes,
// at 9 the levels. Its first table is questions of five words, the answer and a level and a place; its first table of bytes is the split one.
#![tactic(auto)]

ghost use Rattle.std.specs.Prelude.{◌≡◌, true, ◌≤◌, length};
ghost use Rattle.space.specs.Levels.{most_roots};
ghost use Rattle.octree.specs.Parts.{Covers};

use lookup::{Covered, covering_leaf, has_finer_vertex};
use octree::{Octant, Octree, Roots, level_at};
use std::io;
use tape::{BYTES, Inputs, Part, Section};

fn count(tape: &[u32], at: usize, i: usize) -> usize {
    tape::word(tape, at, i) as usize
}

// The roots of the octree at a place.
fn roots_at(tape: &[u32], at: usize) -> Roots {
    Roots {
        nx: count(tape, at, 2),
        ny: count(tape, at, 3),
        nz: count(tape, at, 4),
        levels: count(tape, at, 9),
    }
}

// The octant, or the level and the vertex, that the question at a place asks for.
fn asked_at(tape: &[u32], at: usize) -> Octant {
    Octant {
        level: count(tape, at, 1),
        x: count(tape, at, 2),
        y: count(tape, at, 3),
        z: count(tape, at, 4),
    }
}

// Whether there may be so many roots along an axis.
fn is_few(n: usize) -> bool
    ensures { result ≡ true → (1 ≤ n) × (n ≤ most_roots) }
{
    1 <= n && n <= 64
}

// Whether the table is one over these roots.
fn covers(s: &[u8], d: Roots) -> bool
    ensures { result ≡ true → Covers d (length s.now) }
{
    if 5 < d.levels {
        return false;
    }
    if !is_few(d.nx) {
        return false;
    }
    if !is_few(d.ny) {
        return false;
    }
    if !is_few(d.nz) {
        return false;
    }
    if s.len() != level_at(d, d.levels).start {
        return false;
    }
    true
}

// A leaf as a digest, and 0 for none, be the octant split or out of range: the Rust's Option.
fn told(c: Covered) -> u64 {
    match c {
        Covered::Leaf(a) => {
            let level = tape::number(1, a.level as u64);
            let x = tape::number(level, a.x as u64);
            tape::number(tape::number(x, a.y as u64), a.z as u64)
        }
        Covered::Split | Covered::Outside => 0,
    }
}

// Whether the question at a place is answered as on the tape.
// `finer` is what the tape says of a whole octree: which of the two is asked.
fn agrees(tape: &[u32], at: usize, finer: bool, s: &[u8], d: Roots) -> bool {
    let o = asked_at(tape, at);
    let answer = tape::word(tape, at, 0) as u64;
    if !covers(s, d) {
        return false;
    }
    if d.levels < o.level {
        return false;
    }
    let octree = Octree { split: s, roots: d };
    if finer {
        return has_finer_vertex(&octree, o.level, o.x, o.y, o.z) as u64 == answer;
    }
    told(covering_leaf(&octree, o)) == answer
}

// How many questions there were, and how many are answered otherwise.
#[derive(Clone, Copy)]
struct Tally {
    asked: u64,
    differences: u64,
}

// The questions of the octree at a place.
fn ask(tape: &[u32], bytes: &[u8], at: usize) -> Tally
    ensures { result.differences ≤ result.asked × result.asked ≤ 4294967295 }
{
    let finer = tape::word(tape, at, 1) != 0;
    let d = roots_at(tape, at);
    let tables = Inputs::at(tape, at);
    let s = tape::byte_table(bytes, tables.crossing);
    let asked = tape::word(tape, at, 15) / 5;
    let mut question = tables.points.from;
    let mut differences: u64 = 0;
    for _ in 0..asked {
        if !agrees(tape, question, finer, s, d) {
            differences += 1;
        }
        question = tape::onward(tape, question, 5);
    }
    Tally {
        asked: asked as u64,
        differences,
    }
}

// The octrees of a section; tells of all their questions, and answers the place after them.
fn ask_section(
    rt: &impl Print,
    tape: &[u32],
    bytes: &[u8],
    name: Part,
    start: usize,
    calls: u32,
) -> io::Result<usize> {
    let mut at = start;
    let mut asked: u64 = 0;
    let mut differences: u64 = 0;
    for _ in 0..calls {
        let tally = ask(tape, bytes, at);
        asked += tally.asked;
        differences += tally.differences;
        at = Inputs::at(tape, at).after;
    }
    tape::tell(rt, tape::byte_table(bytes, name), asked, differences)?;
    Ok(at)
}

// The sections of a tape, whose first word says how many they are.
fn ask_all(rt: &impl Print, tape: &[u32], bytes: &[u8]) -> io::Result<()> {
    let sections = tape::word(tape, 0, 0);
    let mut at: usize = 1;
    for _ in 0..sections {
        let s = Section::at(tape, at);
        at = ask_section(rt, tape, bytes, s.name, s.start, s.calls)?;
    }
    Ok(())
}

fn main(rt: HostRuntime) -> io::Result<()> {
    let mut bytes = [0u8; BYTES];
    tape::read_full(&mut rt.reader(), &mut bytes)?;
    ask_all(&rt, &tape::unpacked(&bytes), &bytes)
}
