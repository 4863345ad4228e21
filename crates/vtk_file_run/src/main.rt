// Writes the viewer's file of a small mesh, reads it back, and reads what becomes of it when it is cut or changed. Prints how each is taken.
#![tactic(auto)]

use file_steps::LoadError;
use refusals::Refusal;
use std::io;

// How a file is taken.
#[derive(Clone, Copy)]
enum Taken {
    // it reads, as the sample's mesh
    Same,
    // it reads, as another mesh
    Other,
    // it reads, and what is written for its mesh differs behind the title: this must never be
    Wrong,
    Refused(Refusal),
}

// How often files are taken so, the refusals by their numbers.
#[derive(Drop)]
struct Tally {
    same: u64,
    other: u64,
    wrong: u64,
    refused: [u64; 18],
}

impl Tally {
    fn new() -> Self {
        Self {
            same: 0,
            other: 0,
            wrong: 0,
            refused: [0; 18],
        }
    }

    fn add(&mut self, taken: Taken) {
        let count = match taken {
            Taken::Same => &mut self.same,
            Taken::Other => &mut self.other,
            Taken::Wrong => &mut self.wrong,
            Taken::Refused(why) => &mut self.refused[why.number() as usize],
        };
        *count = count.wrapping_add(1);
    }
}

// Writes the file of a mesh; answers its bytes, or 0 where it is refused.
fn write(points: &[u32], cells: &[u32], file: &mut [u8]) -> u64 {
    let mut work = [7u32; 10];
    vtk_writer::write_vtk(points, cells, file, &mut work).unwrap_or(0)
}

// Five points, among them a signalling NaN, an infinity and -0; two cells that hang together at point 3. The file has 287 bytes.
fn write_sample(rt: &impl Print, file: &mut [u8]) -> io::Result<()> {
    let points: [u32; 15] = [
        0,
        0,
        0,
        0x3F80_0000,
        0,
        0,
        0,
        0x7FA0_0001,
        0,
        0xFF80_0000,
        0x8000_0000,
        1,
        2,
        3,
        4,
    ];
    let cells: [u32; 8] = [0, 1, 2, 3, 3, 4, 1, 1];
    println!(rt; "written {}", write(&points, &cells, file))
}

// A file that was read, and what is written for its mesh.
fn kind(sample: &[u8], file: &[u8], again: &[u8]) -> Taken {
    if file.len() < 277 || again.len() < 37 {
        return Taken::Wrong;
    }
    if file[file.len() - 250..] != again[37..] {
        return Taken::Wrong;
    }
    if sample == again {
        return Taken::Same;
    }
    Taken::Other
}

// How a file is taken.
fn outcome(sample: &[u8], file: &[u8]) -> Taken {
    let mut points = [7u32; 15];
    let mut cells = [7u32; 8];
    let mut work = [7u32; 10];
    match vtk_reader::read_vtk(file, &mut points, &mut cells, &mut work) {
        Ok(_) => {
            let mut again = [0u8; 287];
            write(&points, &cells, &mut again);
            kind(sample, file, &again)
        }
        Err(LoadError::Refused(why)) => Taken::Refused(why),
        Err(LoadError::Short(_, _)) => Taken::Refused(Refusal::NoRoom),
    }
}

// Puts bytes behind others, as far as there is room, and answers the place after them.
fn put(file: &mut [u8], at: usize, bytes: &[u8]) -> usize {
    if file.len() < at || file.len() - at < bytes.len() {
        return at;
    }
    let end = at + bytes.len();
    file[at..end].copy_from_slice(bytes);
    end
}

// The outcome where some bytes of the sample at a place are others.
fn respelled(sample: &[u8], at: usize, many: usize, bytes: &[u8]) -> Taken {
    let mut file = [0u8; 600];
    if sample.len() < at || sample.len() - at < many {
        return Taken::Wrong;
    }
    let rest = at + many;
    let first = put(&mut file, 0, &sample[..at]);
    let second = put(&mut file, first, bytes);
    let end = put(&mut file, second, &sample[rest..]);
    if 600 < end {
        return Taken::Wrong;
    }
    outcome(sample, &file[..end])
}

fn print_taken(rt: &impl Print, taken: Taken) -> io::Result<()> {
    match taken {
        Taken::Same => print!(rt; " the mesh"),
        Taken::Other => print!(rt; " another mesh"),
        Taken::Wrong => print!(rt; " 2"),
        Taken::Refused(why) => print!(rt; " {}", why.number()),
    }
}

fn print_respelled(
    rt: &impl Print,
    title: &str,
    sample: &[u8],
    at: usize,
    many: usize,
    bytes: &[u8],
) -> io::Result<()> {
    print!(rt; "{title}")?;
    print_taken(rt, respelled(sample, at, many, bytes))?;
    println!(rt)
}

// How often each outcome was.
fn print_counts(rt: &impl Print, title: &str, counts: &Tally) -> io::Result<()> {
    print!(rt; "{title}")?;
    if counts.same != 0 {
        print!(rt; " the mesh: {}", counts.same)?;
    }
    if counts.other != 0 {
        print!(rt; " another mesh: {}", counts.other)?;
    }
    if counts.wrong != 0 {
        print!(rt; " 2: {}", counts.wrong)?;
    }
    for (number, count) in counts.refused.iter().enumerate() {
        if *count != 0 {
            print!(rt; " {number}: {}", *count)?;
        }
    }
    println!(rt)
}

// Every part of the sample from the front, the whole left out.
fn parts(rt: &impl Print, sample: &[u8]) -> io::Result<()> {
    let mut counts = Tally::new();
    for n in 0..sample.len() {
        counts.add(outcome(sample, &sample[..n]));
    }
    print_counts(rt, "each part from the front:", &counts)
}

// At every place some bytes left out, and others put in.
fn respellings(
    rt: &impl Print,
    title: &str,
    sample: &[u8],
    many: usize,
    bytes: &[u8],
) -> io::Result<()> {
    let mut counts = Tally::new();
    for at in 0..sample.len() {
        counts.add(respelled(sample, at, many, bytes));
    }
    print_counts(rt, title, &counts)
}

// At every place another byte: that many further on.
fn changes(rt: &impl Print, title: &str, sample: &[u8], by: u8) -> io::Result<()> {
    let mut counts = Tally::new();
    for (at, x) in sample.iter().enumerate() {
        counts.add(respelled(sample, at, 1, &[x.wrapping_add(by)]));
    }
    print_counts(rt, title, &counts)
}

fn titles(rt: &impl Print, sample: &[u8]) -> io::Result<()> {
    let title = [b'x'; 257];
    print_respelled(rt, "title of 0 bytes:", sample, 27, 10, b"")?;
    print_respelled(rt, "title of 255 bytes:", sample, 27, 10, &title[..255])?;
    print_respelled(rt, "title of 256 bytes:", sample, 27, 10, &title[..256])?;
    print_respelled(rt, "title of 257 bytes:", sample, 27, 10, &title)?;
    print_respelled(rt, "carriage return in the title:", sample, 30, 1, b"\r")?;
    print_respelled(rt, "line feed in the title:", sample, 30, 1, b"\n")
}

// The counts of the sample's 5 points and 2 cells spelled otherwise.
fn counts(rt: &impl Print, sample: &[u8]) -> io::Result<()> {
    print_respelled(rt, "05 points:", sample, 78, 1, b"05")?;
    print_respelled(rt, "4 points:", sample, 78, 1, b"4")?;
    print_respelled(rt, "no points:", sample, 78, 1, b"")?;
    print_respelled(rt, "4294967295 points:", sample, 78, 1, b"4294967295")?;
    print_respelled(rt, "42949672950 points:", sample, 78, 1, b"42949672950")?;
    print_respelled(rt, "cells 2 010:", sample, 153, 4, b"2 010")?;
    print_respelled(rt, "cells 2 11:", sample, 153, 4, b"2 11")?;
    print_respelled(
        rt,
        "cells 1999999999 9999999995:",
        sample,
        153,
        4,
        b"1999999999 9999999995",
    )?;
    print_respelled(
        rt,
        "cells 2000000000 10000000000:",
        sample,
        153,
        4,
        b"2000000000 10000000000",
    )?;
    print_respelled(
        rt,
        "cells 4294967295 21474836475:",
        sample,
        153,
        4,
        b"4294967295 21474836475",
    )?;
    print_respelled(rt, "02 types:", sample, 210, 1, b"02")?;
    print_respelled(rt, "3 numbers:", sample, 231, 1, b"3")
}

fn read_all(rt: &impl Print, sample: &[u8]) -> io::Result<()> {
    print!(rt; "read:")?;
    print_taken(rt, outcome(sample, sample))?;
    println!(rt)?;
    titles(rt, sample)?;
    counts(rt, sample)?;
    print_respelled(rt, "a byte behind the end:", sample, 287, 0, b"\n")?;
    parts(rt, sample)?;
    changes(rt, "each byte 1 more:", sample, 1)?;
    changes(rt, "each byte 128 more:", sample, 128)?;
    changes(rt, "each byte 1 less:", sample, 255)?;
    respellings(rt, "each byte left out:", sample, 1, b"")?;
    respellings(rt, "a line feed before each byte:", sample, 0, b"\n")
}

fn main(rt: HostRuntime) -> io::Result<()> {
    let mut sample = [0u8; 287];
    write_sample(&rt, &mut sample)?;
    read_all(&rt, &sample)
}
