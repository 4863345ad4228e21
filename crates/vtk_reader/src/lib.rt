// The step `read_vtk`: the mesh of a viewer's file, on any bytes.
#![tactic(auto)]

ghost use Rattle.std.specs.Prelude.{◌≡◌, ◌+◌, ◌*◌, ◌≤◌, length};
ghost use Rattle.refusals.specs.Rows.{first};
ghost use Rattle.refusals.specs.Refusals.{number_in};
ghost use Rattle.vtk_layout.specs.Parts.{Laid};
ghost use Rattle.file_steps.specs.Reader.{Reads};
ghost use Rattle.vtk_reader.specs.Step.{blocks_of, body_rows, ReadDone};
ghost use Rattle.vtk_reader.specs.Parts.{cell_rows};

use file_components::Blocks;
use file_steps::{LoadError, Loaded};
use refusals::Refusal;
use vtk_layout::Layout;

// What n cells are refused with: 15 where one is not led by a four, 8 where one names a number not below the bound, or nothing.
fn judge_cells(file: &[u8], at: usize, n: usize, bound: u32) -> Result<(), Refusal>
    requires { at + 20 * n ≤ length file.now }
    ensures { number_in result ≡ first (cell_rows file.now bound n at) }
{
    let mut named = true;
    for i in 0..n {
        if words::word(file, at + 20 * i, true) != 4 {
            return Err(Refusal::Shape);
        }
        if !words::four_below(file, at + 20 * i + 4, true, bound) {
            named = false;
        }
    }
    if !named {
        return Err(Refusal::Point);
    }
    Ok(())
}

// What a file is refused with whose layout is found, before any table is looked at: 15, 4, 8, or nothing. Where the points are too many
// for a word the cells are compared with another bound, but the answer is then 15 or 4.
fn judge(file: &[u8], l: Layout) -> Result<(), Refusal>
    requires { Laid file.now l }
    ensures { number_in result ≡ first (body_rows file.now l) }
{
    let p = l.p;
    let n = l.n;
    let cells = judge_cells(file, l.cells, n, p.min(4_294_967_295) as u32);
    if cells == Err(Refusal::Shape) {
        return cells;
    }
    if !words::all_are(file, l.types, true, n, 10) {
        return Err(Refusal::Shape);
    }
    if mesh::MOST < p {
        return Err(Refusal::TooLarge);
    }
    if mesh::MOST < n {
        return Err(Refusal::TooLarge);
    }
    cells
}

// Reads the mesh of a file whose layout is found. A cell is five words, of which the first leads it.
fn load(
    file: &[u8],
    l: Layout,
    points: &mut [u32],
    cells: &mut [u32],
    work: &mut [u32],
) -> Result<Loaded, LoadError>
    requires { Laid file.now l }
    ensures { Reads (body_rows file.now l) file.now (blocks_of l) points.old cells.old work.old result points.new cells.new work.new }
{
    judge(file, l)?;
    let s = Blocks {
        p: l.p,
        n: l.n,
        m: l.n,
        points: l.points,
        cells: l.cells + 4,
        numbers: l.numbers,
        stride: 5,
        big: true,
    };
    file_steps::load(file, s, points, cells, work)
}

// Reads the mesh of a viewer's file. Refused with 14 or 11, whichever comes first from the front, then 12, 15, 4, 8, with 9 where a table
// has no room for the points and cells, which it then carries, and with 13: points and cells are then as lent. Answered with points and cells.
// On an answer and on 13 the first 2 entries a point of `work` are zero, and else it is as lent.
pub fn read_vtk(
    file: &[u8],
    points: &mut [u32],
    cells: &mut [u32],
    work: &mut [u32],
) -> Result<Loaded, LoadError>
    ensures { ReadDone file.now points.old cells.old work.old result points.new cells.new work.new }
{
    let l = vtk_layout::locate(file)?;
    load(file, l, points, cells, work)
}
