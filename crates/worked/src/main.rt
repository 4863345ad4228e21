// Runs worked numbers of section 13 of the rules that are not in the proved table, and prints a line for each: the number of the refusal, for
// a 4 what it names, and for a plan the x origin and the unit as bit patterns, the dimensions and the octants.
#![tactic(auto)]

use plan::{Bounds, Plan, Planned, Refusal};
use std::io;

// A number of 0 where there is none.
fn print_refusal(rt: &impl Print, why: Refusal) -> io::Result<()> {
    match why {
        Refusal::Number(number) => print!(rt; " {number}"),
        Refusal::TooLarge(fault) => print!(rt; " 4 {}", fault.number()),
    }
}

// The plan of the box from x0 to x1 along x and from y0 to y1 along the other two; floats by their patterns.
fn show(
    rt: &impl Print,
    x0: u32,
    x1: u32,
    y0: u32,
    y1: u32,
    c: u32,
    levels: u32,
) -> io::Result<()> {
    let y = float32::to_f32(y0);
    let top = float32::to_f32(y1);
    let b = Bounds {
        x0: float32::to_f32(x0),
        y0: y,
        z0: y,
        x1: float32::to_f32(x1),
        y1: top,
        z1: top,
    };
    let a = Plan::new(b, float32::to_f32(c), levels);
    print_refusal(rt, a.refusal())?;
    if let Planned::Ready(p) = a {
        let origin = float32::from_f32(p.ox);
        let unit = float32::from_f32(p.half);
        print!(rt;
            " {origin:08x} {unit:08x} {} {} {} {}",
            p.nx, p.ny, p.nz, p.octants
        )?;
    }
    println!(rt)
}

// Boxes and cell sizes at the limits of the dimensions and of the octants, and where the loosened bounds are rounded.
fn show_sizes(rt: &impl Print) -> io::Result<()> {
    println!(rt; "c 1, L 1, x to 58 and to 59")?;
    show(rt, 0, 0x4268_0000, 0, 0, 0x3F80_0000, 1)?;
    show(rt, 0, 0x426C_0000, 0, 0, 0x3F80_0000, 1)?;
    println!(rt; "c 1, L 0, x to 60 and to 60.5")?;
    show(rt, 0, 0x4270_0000, 0, 0, 0x3F80_0000, 0)?;
    show(rt, 0, 0x4272_0000, 0, 0, 0x3F80_0000, 0)?;
    println!(rt; "c 1, L 5, box all 0 and x to 0.25; L 6")?;
    show(rt, 0, 0, 0, 0, 0x3F80_0000, 5)?;
    show(rt, 0, 0x3E80_0000, 0, 0, 0x3F80_0000, 5)?;
    show(rt, 0, 0, 0, 0, 0x3F80_0000, 6)?;
    println!(rt; "x at -7.3127151, c 0.3, L 1: the loosened bounds are rounded")?;
    show(rt, 0xC0EA_01C3, 0xC0EA_01C3, 0, 0, 0x3E99_999A, 1)?;
    println!(rt; "c 1.7, L 1")?;
    show(rt, 0, 0, 0, 0, 0x3FD9_999A, 1)?;
    println!(rt; "box at 1e8, c 1, L 1")?;
    show(
        rt,
        0x4CBE_BC20,
        0x4CBE_BC20,
        0x4CBE_BC20,
        0x4CBE_BC20,
        0x3F80_0000,
        1,
    )
}

// Cell sizes and bounds that are subnormal, near the greatest float, not finite or out of order.
fn show_odd_floats(rt: &impl Print) -> io::Result<()> {
    println!(rt; "c 5 * 2^-149, L 2; c 2^-149, L 1 and L 0")?;
    show(rt, 0, 0, 0, 0, 5, 2)?;
    show(rt, 0, 0, 0, 0, 1, 1)?;
    show(rt, 0, 0, 0, 0, 1, 0)?;
    println!(rt;
        "only the far corner is not finite: c 2^104, y one place below the greatest, L 0; two places, L 1; c 5.6e37, x to 1e36, L 1"
    )?;
    show(rt, 0, 0, 0x7F7F_FFFE, 0x7F7F_FFFE, 0x7380_0000, 0)?;
    show(rt, 0, 0, 0x7F7F_FFFD, 0x7F7F_FFFD, 0x7380_0000, 1)?;
    show(rt, 0, 0x7B40_97CE, 0, 0, 0x7E28_84D5, 1)?;
    println!(rt; "x from 0 to -0; x from NaN; x to infinity; x from 1 to 0; c NaN and x from NaN")?;
    show(rt, 0, 0x8000_0000, 0, 0, 0x3F80_0000, 1)?;
    show(rt, 0x7FC0_0000, 0, 0, 0, 0x3F80_0000, 1)?;
    show(rt, 0, 0x7F80_0000, 0, 0, 0x3F80_0000, 1)?;
    show(rt, 0x3F80_0000, 0, 0, 0, 0x3F80_0000, 1)?;
    show(rt, 0x7FC0_0000, 0, 0, 0, 0x7FC0_0001, 1)
}

fn main(rt: HostRuntime) -> io::Result<()> {
    show_sizes(&rt)?;
    show_odd_floats(&rt)
}
