// The step `read_mesh`: the mesh of a mesh file, on any bytes.
#![tactic(auto)]

ghost use Rattle.std.specs.Prelude.{◌≡◌};
ghost use Rattle.refusals.specs.Rows.{first};
ghost use Rattle.refusals.specs.Refusals.{number_in};
ghost use Rattle.mesh_reader.specs.Step.{section_rows, file_rows, ReadDone};

use file_steps::{LoadError, Loaded};
use refusals::Refusal;

// What the lengths of the sections are refused with: 11, 12, or nothing.
fn judge_sections(file: &[u8]) -> Result<(), Refusal>
    ensures { number_in result ≡ first (section_rows file.now) }
{
    if mesh_layout::is_cut(file, 0, 3) {
        return Err(Refusal::Cut);
    }
    let second = mesh_layout::end_of(file, 0, 3);
    if mesh_layout::is_cut(file, second, 4) {
        return Err(Refusal::Cut);
    }
    let third = mesh_layout::end_of(file, second, 4);
    if mesh_layout::is_cut(file, third, 1) {
        return Err(Refusal::Cut);
    }
    if mesh_layout::end_of(file, third, 1) < file.len() {
        return Err(Refusal::Trailing);
    }
    Ok(())
}

// What a file is refused with before any table is looked at: 11, 12, 4, 8, or nothing.
fn judge(file: &[u8]) -> Result<(), Refusal>
    ensures { number_in result ≡ first (file_rows file.now) }
{
    judge_sections(file)?;
    let s = mesh_layout::blocks(file);
    file_steps::judge_content(file, s)
}

// Reads the mesh of a file. Refused with 11, 12, 4, 8, with 9 where a table has no room for the points and cells, which it then carries,
// and with 13: points and cells are then as lent. Answered with points and cells.
// On an answer and on 13 the first 2 entries a point of `work` are zero, and else it is as lent.
pub fn read_mesh(
    file: &[u8],
    points: &mut [u32],
    cells: &mut [u32],
    work: &mut [u32],
) -> Result<Loaded, LoadError>
    ensures { ReadDone file.now points.old cells.old work.old result points.new cells.new work.new }
{
    judge(file)?;
    let s = mesh_layout::blocks(file);
    file_steps::load(file, s, points, cells, work)
}
