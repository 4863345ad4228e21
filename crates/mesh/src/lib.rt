// A mesh: its counts, its bounds, the refusals of every step that takes one, and its cells by value.
#![tactic(auto)]

ghost use Rattle.std.specs.Prelude.{◌≡◌, ◌/◌, ◌≤◌, ◌<◌};
ghost use Rattle.refusals.specs.Rows.{first};
ghost use Rattle.refusals.specs.Refusals.{number_in};
ghost use Rattle.mesh.specs.Mesh.{most, cells_of, cell_of};
ghost use Rattle.mesh.specs.Judged.{size_rows, name_rows, mesh_rows};

use refusals::Refusal;

// The most points, and the most cells.
pub const MOST: usize = 536_870_912;

// The four points that a cell names, in order.
#[derive(Clone, Copy)]
pub struct Cell {
    pub a: usize,
    pub b: usize,
    pub c: usize,
    pub d: usize,
}

// The cell i of a table.
pub fn cell_at(cells: &[u32], i: usize) -> Cell
    requires { i < cells_of cells.now }
    ensures { result ≡ cell_of cells.now i }
{
    let at = 4 * i;
    Cell {
        a: cells[at] as usize,
        b: cells[at + 1] as usize,
        c: cells[at + 2] as usize,
        d: cells[at + 3] as usize,
    }
}

// What the lengths of the tables are refused with by a step that asks `a` work entries a cell and `b` a point, and has `room` of them: 4, 5,
// or nothing. `points` and `cells` are the lengths of the tables.
pub fn judge_sizes(
    points: usize,
    cells: usize,
    room: usize,
    a: usize,
    b: usize,
) -> Result<(), Refusal>
    requires { (a ≤ 16) × (b ≤ 2) }
    ensures { number_in result ≡ first (size_rows points cells room a b) }
{
    if MOST < points / 3 {
        return Err(Refusal::TooLarge);
    }
    if MOST < cells / 4 {
        return Err(Refusal::TooLarge);
    }
    if points % 3 != 0 {
        return Err(Refusal::Length);
    }
    if cells % 4 != 0 {
        return Err(Refusal::Length);
    }
    if room < a * (cells / 4) + b * (points / 3) {
        return Err(Refusal::Length);
    }
    Ok(())
}

// What cells are refused with where `points` is the length of the table of points: 8 where a cell names one that is not there, or nothing.
pub fn judge_names(points: usize, cells: &[u32]) -> Result<(), Refusal>
    requires { points / 3 ≤ most }
    ensures { number_in result ≡ first (name_rows (points / 3) cells.now) }
{
    if !lists::all_below(cells, (points / 3) as u32) {
        return Err(Refusal::Point);
    }
    Ok(())
}

// What a mesh is refused with, as `judge_sizes` and then `judge_names` have it: 4, 5, 8, or nothing. Points and cells come apart, here and
// in every step, as C lends them.
pub fn judge(points: usize, cells: &[u32], room: usize, a: usize, b: usize) -> Result<(), Refusal>
    requires { (a ≤ 16) × (b ≤ 2) }
    ensures { number_in result ≡ first (mesh_rows points cells.now room a b) }
{
    judge_sizes(points, cells.len(), room, a, b)?;
    judge_names(points, cells)
}
