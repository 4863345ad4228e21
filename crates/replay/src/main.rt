// Replays a fixed sample of calls whose answers the lifted Rust gave: stdin is the tape (crate `tape`), stdout what is printed where
// nothing differs. Both are made by `oracle/sample`.
#![tactic(auto)]

use coverage::Totals;
use plan::Bounds;
use sporeferry::{
    Answer, CoveredAnswer, PlanAnswer, sf_add_coverage, sf_components, sf_face_components, sf_grid,
    sf_keep_cover, sf_keep_crust, sf_marks, sf_one_piece, sf_plan, sf_read_mesh, sf_read_vtk,
    sf_refine, sf_representatives, sf_write_mesh, sf_write_vtk,
};
use std::io;
use tape::{BYTES, Inputs, Lengths, ROOM, Section, tell};

fn float(tape: &[u32], at: usize, i: usize) -> f32 {
    float32::to_f32(tape::word(tape, at, i))
}

// The box of a call.
fn bounds_at(tape: &[u32], at: usize) -> Bounds {
    Bounds {
        x0: float(tape, at, 2),
        y0: float(tape, at, 3),
        z0: float(tape, at, 4),
        x1: float(tape, at, 5),
        y1: float(tape, at, 6),
        z1: float(tape, at, 7),
    }
}

// A number of two words.
fn joined(low: u32, high: u32) -> u64 {
    high as u64 * 4_294_967_296 + low as u64
}

// The totals of a call, which stand where others have a probe table: of each the low word first.
fn totals_at(tape: &[u32], at: usize) -> Totals {
    Totals {
        cells: joined(tape::word(tape, at, 0), tape::word(tape, at, 1)),
        kept: joined(tape::word(tape, at, 2), tape::word(tape, at, 3)),
        dropped: joined(tape::word(tape, at, 4), tape::word(tape, at, 5)),
        sixfold_kept: joined(tape::word(tape, at, 6), tape::word(tape, at, 7)),
        sixfold_all: joined(tape::word(tape, at, 8), tape::word(tape, at, 9)),
    }
}

fn pattern(digest: u64, x: f32) -> u64 {
    tape::number(digest, float32::from_f32(x) as u64)
}

fn word(digest: u64, x: u32) -> u64 {
    tape::number(digest, x as u64)
}

// A digest of what is answered by value.
fn told(a: Answer) -> u64 {
    let first = tape::number(word(0, a.number), a.first);
    tape::number(tape::number(first, a.second), a.third)
}

fn planned(a: PlanAnswer) -> u64 {
    let x = pattern(word(word(0, a.number), a.value), a.ox);
    let z = pattern(pattern(x, a.oy), a.oz);
    let nx = word(pattern(z, a.half), a.nx);
    word(word(word(nx, a.ny), a.nz), a.octants)
}

fn covered(a: CoveredAnswer) -> u64 {
    let t = a.totals;
    let kept = tape::number(tape::number(word(0, a.number), t.cells), t.kept);
    let dropped = tape::number(kept, t.dropped);
    tape::number(tape::number(dropped, t.sixfold_kept), t.sixfold_all)
}

// Calls the step of a call and takes the digest of its answer: the first table of bytes on the tape is what the step calls crossing, split,
// file or marks, and tables are written in the order of the C function, bytes and long words apart. Tables come one by one, as the steps take
// them.
fn answered(
    tape: &[u32],
    bytes: &[u8],
    at: usize,
    first: &mut [u32],
    second: &mut [u32],
    third: &mut [u32],
    small: &mut [u8],
    long: &mut [u64],
) -> u64 {
    let bounds = bounds_at(tape, at);
    let c = float(tape, at, 8);
    let levels = tape::word(tape, at, 9);
    let n = Inputs::at(tape, at);
    let points = tape::table(tape, n.points);
    let cells = tape::table(tape, n.cells);
    let crossing = tape::byte_table(bytes, n.crossing);
    let probe = tape::byte_table(bytes, n.probe);
    // The numbers are the tape's, and stand in this one place.
    match tape::word(tape, at, 1) {
        0 => planned(sf_plan(bounds, c, levels)),
        1 => told(sf_refine(bounds, c, levels, crossing, small)),
        2 => told(sf_grid(bounds, c, levels, crossing, first, second, third, long)),
        3 => told(sf_representatives(points, cells, crossing, first, second, third)),
        4 => told(sf_keep_cover(c, points, cells, crossing, probe, first, second, third)),
        5 => told(sf_keep_crust(c, points, cells, crossing, first, second, third)),
        6 => told(sf_components(points, cells, first, second)),
        7 => told(sf_one_piece(points, cells, first)),
        8 => told(sf_write_mesh(points, cells, small, first)),
        9 => told(sf_read_mesh(crossing, first, second, third)),
        10 => told(sf_write_vtk(points, cells, small, first)),
        11 => told(sf_read_vtk(crossing, first, second, third)),
        12 => told(sf_marks(c, points, cells, crossing, probe, small, first)),
        13 => covered(sf_add_coverage(totals_at(tape, n.probe.from), points, cells, crossing)),
        _ => told(sf_face_components(points, cells, first, second)),
    }
}

// The same, and of all that it leaves in the tables that it writes.
fn digested(
    tape: &[u32],
    bytes: &[u8],
    at: usize,
    first: &mut [u32],
    second: &mut [u32],
    third: &mut [u32],
    small: &mut [u8],
    long: &mut [u64],
) -> u64 {
    let answer = answered(tape, bytes, at, first, second, third, small, long);
    let d = tape::entries(tape::entries(tape::entries(answer, first), second), third);
    tape::entries(tape::entries(d, small), long)
}

fn filled() -> [u32; ROOM] {
    [0xA5A5_A5A5u32; ROOM]
}

// Makes a call, which finds the tables that it writes filled with 0xA5, and cut to their lengths.
fn replay(tape: &[u32], bytes: &[u8], at: usize) -> u64 {
    let mut first = filled();
    let mut second = filled();
    let mut third = filled();
    let mut small = [0xA5u8; ROOM];
    let mut long = [0xA5A5_A5A5_A5A5_A5A5u64; ROOM];
    let n = Lengths::at(tape, at);
    let a = n.first;
    let b = n.second;
    let c = n.third;
    let s = n.bytes;
    let l = n.longs;
    digested(
        tape,
        bytes,
        at,
        &mut first[0..a],
        &mut second[0..b],
        &mut third[0..c],
        &mut small[0..s],
        &mut long[0..l],
    )
}

// How many calls of a section differ, and the place after it.
#[derive(Clone, Copy)]
struct Tally {
    after: usize,
    differences: u32,
}

fn replay_section(tape: &[u32], bytes: &[u8], start: usize, calls: u32) -> Tally {
    let mut at = start;
    let mut differences: u32 = 0;
    for _ in 0..calls {
        if replay(tape, bytes, at) != tape::word(tape, at, 0) as u64 {
            differences += 1;
        }
        at = Inputs::at(tape, at).after;
    }
    Tally {
        after: at,
        differences,
    }
}

// Replays the sections of a tape, whose first word says how many they are.
fn replay_all(rt: &impl Print, tape: &[u32], bytes: &[u8]) -> io::Result<()> {
    let sections = tape::word(tape, 0, 0);
    let mut at: usize = 1;
    let mut calls: u64 = 0;
    let mut differences: u64 = 0;
    for _ in 0..sections {
        let section = Section::at(tape, at);
        let tally = replay_section(tape, bytes, section.start, section.calls);
        tell(
            rt,
            tape::byte_table(bytes, section.name),
            section.calls as u64,
            tally.differences as u64,
        )?;
        calls += section.calls as u64;
        differences += tally.differences as u64;
        at = tally.after;
    }
    tell(rt, b"all", calls, differences)
}

fn main(rt: HostRuntime) -> io::Result<()> {
    let mut bytes = [0u8; BYTES];
    tape::read_full(&mut rt.reader(), &mut bytes)?;
    replay_all(&rt, &tape::unpacked(&bytes), &bytes)
}
