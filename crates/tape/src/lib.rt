// A tape of recorded calls: words of 32 bits; past its end every word is 0. The first says how many sections follow. A section is how
// many calls it has, the length of its name, the name, and the calls. A call is a head of 19 words and the contents of its input tables:
//   0   the digest of what the step must answer and leave
//   1   the step's number
//   2   a box, six floats; 8 a cell size; 9 levels
//   10  the lengths of the tables that the step writes: three of words, one of bytes, one of long words
//   15  the lengths of its input tables: two of words, two of bytes
// Bytes stand four to a word, the low byte first, and at least one byte of none behind them.
#![tactic(auto)]

ghost use Rattle.std.specs.Prelude.{◌≡◌, ◌+◌, ◌*◌, ◌≤◌, min, false, length, get_or, take, drop};
ghost use Rattle.words.specs.Words.{words_at};
ghost use Rattle.tape.specs.Call.{LengthsAt, onward_from, SectionAt, InputsAt};

mod digest;
mod reading;
mod telling;

pub use digest::{Entry, entries, number};
pub use reading::read_full;
pub use telling::tell;

// How many entries a table has at most that is written.
pub const ROOM: usize = 16_384;

// How many bytes a tape has at most.
pub const BYTES: usize = 262_144;

// The tape in words.
pub fn unpacked(bytes: &[u8; BYTES]) -> [u32; 65_536]
    ensures size { 65536 ≡ length result }
    ensures entries { result ≡ words_at false bytes.now 0 65536 }
{
    let mut tape = [0u32; 65_536];
    words::get_words(bytes, 0, false, &mut tape);
    tape
}

// The lengths of the tables that a call writes.
#[derive(Clone, Copy)]
pub struct Lengths {
    pub first: usize,
    pub second: usize,
    pub third: usize,
    pub bytes: usize,
    pub longs: usize,
}

// A part of the tape: the word where it starts, and how many entries it has.
#[derive(Clone, Copy)]
pub struct Part {
    pub from: usize,
    pub count: usize,
}

// A section: its name, how many calls it has, and where they start.
#[derive(Clone, Copy)]
pub struct Section {
    pub name: Part,
    pub calls: u32,
    pub start: usize,
}

// Where the input tables of a call stand, and the place after them.
#[derive(Clone, Copy)]
pub struct Inputs {
    pub points: Part,
    pub cells: Part,
    pub crossing: Part,
    pub probe: Part,
    pub after: usize,
}

// The word i places behind a place.
pub fn word(tape: &[u32], at: usize, i: usize) -> u32
    ensures { result ≡ get_or tape.now (at + i) 0 }
{
    if at < tape.len() {
        if i < tape.len() - at {
            return tape[at + i];
        }
    }
    0
}

// The place n words on, at most the end of the tape.
pub fn onward(tape: &[u32], at: usize, n: usize) -> usize
    ensures { result ≡ onward_from tape.now at n }
{
    let from = at.min(tape.len());
    from + n.min(tape.len() - from)
}

fn count(tape: &[u32], at: usize, i: usize) -> usize
    ensures { result ≡ get_or tape.now (at + i) 0 }
{
    word(tape, at, i) as usize
}

impl Lengths {
    // Those of the call at a place, each at most the room of a table.
    pub fn at(tape: &[u32], at: usize) -> Self
        ensures { LengthsAt tape.now at result }
    {
        Self {
            first: ROOM.min(count(tape, at, 10)),
            second: ROOM.min(count(tape, at, 11)),
            third: ROOM.min(count(tape, at, 12)),
            bytes: ROOM.min(count(tape, at, 13)),
            longs: ROOM.min(count(tape, at, 14)),
        }
    }
}

impl Section {
    // The section at a place.
    pub fn at(tape: &[u32], at: usize) -> Self
        ensures { SectionAt tape.now at result }
    {
        let name = Part {
            from: onward(tape, at, 2),
            count: count(tape, at, 1),
        };
        Self {
            name,
            calls: word(tape, at, 0),
            start: onward(tape, name.from, name.count / 4 + 1),
        }
    }
}

impl Inputs {
    // Those of the call at a place.
    pub fn at(tape: &[u32], at: usize) -> Self
        ensures { InputsAt tape.now at result }
    {
        let points = Part {
            from: onward(tape, at, 19),
            count: count(tape, at, 15),
        };
        let cells = Part {
            from: onward(tape, points.from, points.count),
            count: count(tape, at, 16),
        };
        let crossing = Part {
            from: onward(tape, cells.from, cells.count),
            count: count(tape, at, 17),
        };
        let probe = Part {
            from: onward(tape, crossing.from, crossing.count / 4 + 1),
            count: count(tape, at, 18),
        };
        Self {
            points,
            cells,
            crossing,
            probe,
            after: onward(tape, probe.from, probe.count / 4 + 1),
        }
    }
}

// So many entries from a place on, as far as they are there.
fn entries_from<T>(tape: &[T], from: usize, count: usize) -> &[T]
    requires { from ≤ length tape.now }
    ensures { result.now ≡ take count (drop from tape.now) }
{
    let n = count.min(tape.len() - from);
    &tape[from..from + n]
}

// A table of words on the tape, as far as it is there.
pub fn table(tape: &[u32], part: Part) -> &[u32]
    ensures { result.now ≡ take part.count (drop part.from tape.now) }
{
    entries_from(tape, part.from.min(tape.len()), part.count)
}

// The byte where a word starts, at most the end.
fn first_byte(word: usize, end: usize) -> usize
    ensures { result ≡ min (4 * word) end }
{
    if word <= end / 4 { 4 * word } else { end }
}

// A table of bytes, four to a word, on the tape in bytes, the low byte of a word first.
pub fn byte_table(tape: &[u8], part: Part) -> &[u8]
    ensures { result.now ≡ take part.count (drop (4 * part.from) tape.now) }
{
    let from = first_byte(part.from, tape.len());
    entries_from(tape, from, part.count)
}
