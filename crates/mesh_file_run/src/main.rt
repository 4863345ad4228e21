// Writes the file of a small mesh, reads it back, and reads what is left of it when it is cut or changed. Prints a line for each.
#![tactic(auto)]

use file_steps::{LoadError, Loaded};
use refusals::{CountError, Refusal};
use std::io;

fn print_table(rt: &impl Print, title: &str, table: &[u32]) -> io::Result<()> {
    print!(rt; "{title}")?;
    for x in table {
        print!(rt; " {:08x}", *x)?;
    }
    println!(rt)
}

// Five points, among them a signalling NaN, an infinity and -0; two cells that hang together at point 3.
fn write_sample(rt: &impl Print, file: &mut [u8]) -> io::Result<()> {
    let points: [u32; 15] = [
        0,
        0,
        0,
        0x3F80_0000,
        0,
        0,
        0,
        0x7FA0_0001,
        0,
        0xFF80_0000,
        0x8000_0000,
        1,
        2,
        3,
        4,
    ];
    let cells: [u32; 8] = [0, 1, 2, 3, 3, 4, 1, 1];
    let mut work = [7u32; 11];
    match mesh_writer::write_mesh(&points, &cells, file, &mut work) {
        Ok(bytes) => println!(rt; "written {bytes}")?,
        Err(CountError::Refused(why)) => println!(rt; "refused {}", why.number())?,
        Err(CountError::Short(bytes)) => println!(rt; "9 {bytes}")?,
    }
    print_table(rt, "work", &work)
}

fn print_loaded(rt: &impl Print, a: Result<Loaded, LoadError>) -> io::Result<()> {
    match a {
        Ok(Loaded { points, cells }) => println!(rt; " read {points} {cells}"),
        Err(LoadError::Refused(why)) => println!(rt; " refused {}", why.number()),
        Err(LoadError::Short(points, cells)) => println!(rt; " 9 {points} {cells}"),
    }
}

// Reads a file into tables that hold sevens, and shows the tables.
fn show(rt: &impl Print, file: &[u8]) -> io::Result<()> {
    let mut points = [7u32; 17];
    let mut cells = [7u32; 9];
    let mut work = [7u32; 11];
    let a = mesh_reader::read_mesh(file, &mut points, &mut cells, &mut work);
    print_loaded(rt, a)?;
    print_table(rt, " points", &points)?;
    print_table(rt, " cells", &cells)?;
    print_table(rt, " work", &work)
}

// Reads a file into tables with just enough room.
fn outcome(file: &[u8]) -> Result<Loaded, LoadError> {
    let mut points = [7u32; 15];
    let mut cells = [7u32; 8];
    let mut work = [7u32; 10];
    mesh_reader::read_mesh(file, &mut points, &mut cells, &mut work)
}

// The length of the first part of the file that is not refused as cut.
fn first_whole(file: &[u8]) -> usize {
    for n in 0..file.len() {
        if outcome(&file[..n]) != Err(LoadError::Refused(Refusal::Cut)) {
            return n;
        }
    }
    file.len()
}

// The outcome where one byte is another; the byte is put back.
fn changed(rt: &impl Print, title: &str, file: &mut [u8], at: usize, byte: u8) -> io::Result<()> {
    print!(rt; "{title}")?;
    if at < file.len() {
        let before = file[at];
        file[at] = byte;
        print_loaded(rt, outcome(file))?;
        file[at] = before;
    }
    Ok(())
}

fn main(rt: HostRuntime) -> io::Result<()> {
    let mut more = [0xEEu8; 113];
    write_sample(&rt, &mut more)?;
    print!(&rt; "a byte more")?;
    print_loaded(&rt, outcome(&more))?;
    let mut file = [0u8; 112];
    write_sample(&rt, &mut file)?;
    println!(&rt; "whole")?;
    show(&rt, &file)?;
    println!(&rt; "the first part that is not cut: {}", first_whole(&file))?;
    changed(&rt, "points 255 more", &mut file, 0, 255)?;
    changed(&rt, "points 2^31 more", &mut file, 3, 128)?;
    changed(&rt, "points one fewer", &mut file, 0, 4)?;
    changed(&rt, "cells 2^24 more", &mut file, 67, 1)?;
    changed(&rt, "numbers one fewer", &mut file, 100, 1)?;
    changed(&rt, "numbers one more", &mut file, 100, 3)?;
    changed(&rt, "a point not there", &mut file, 68, 5)?;
    changed(&rt, "a number that is not the writer's", &mut file, 108, 1)?;
    changed(&rt, "another vertex of the second cell", &mut file, 84, 4)?;
    changed(&rt, "another coordinate", &mut file, 4, 9)?;
    println!(&rt; "wrong numbers")?;
    file[104] = 1;
    show(&rt, &file)
}
