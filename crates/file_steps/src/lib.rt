// What the steps of every file format share: the outcome of a reader, and what it does behind the refusals by the file alone.
#![tactic(auto)]

ghost use Rattle.std.specs.Prelude.{◌≡◌, [], ◌≤◌, eqb};
ghost use Rattle.refusals.specs.Rows.{first};
ghost use Rattle.refusals.specs.Refusals.{number_in};
ghost use Rattle.mesh.specs.Mesh.{most};
ghost use Rattle.file_components.specs.Parts.{CellsStand};
ghost use Rattle.file_steps.specs.Reader.{content_rows, table_rows, Reads};
ghost use Rattle.file_steps.specs.Parts.{Loadable};
ghost use Rattle.file_steps.specs.declared.LoadError.TheVariants.{Refused};

use file_components::Blocks;
use refusals::Refusal;

// What a reader has read: so many points and cells.
#[derive(Clone, Copy, Debug, PartialEq, Eq)]
pub struct Loaded {
    pub points: u64,
    pub cells: u64,
}

// Why a reader reads nothing: refused; no room for so many points and cells.
#[derive(Clone, Copy, Debug, PartialEq, Eq)]
pub enum LoadError {
    Refused(Refusal),
    Short(u64, u64),
}

impl From<Refusal> for LoadError {
    ghost from_gives = { λ why r. r ≡ Refused why };

    fn from(why: Refusal) -> LoadError {
        LoadError::Refused(why)
    }
}

// What a file is refused with for the mesh that it has: 4, 8, or nothing.
pub fn judge_content(file: &[u8], s: Blocks) -> Result<(), Refusal>
    requires { CellsStand file.now s }
    ensures { number_in result ≡ first (content_rows file.now s) }
{
    let p = s.p;
    let n = s.n;
    if mesh::MOST < p {
        return Err(Refusal::TooLarge);
    }
    if mesh::MOST < n {
        return Err(Refusal::TooLarge);
    }
    if !words::cells_below(file, s.cells, s.stride, s.big, n, p as u32) {
        return Err(Refusal::Point);
    }
    Ok(())
}

// Whether tables of these lengths have room for p points and n cells.
fn has_room(points: usize, cells: usize, work: usize, p: usize, n: usize) -> bool
    requires { p ≤ most }
    ensures { result ≡ eqb (first (table_rows points cells work p n)) 0 }
{
    p <= points / 3 && n <= cells / 4 && 2 * p <= work
}

// Reads the mesh of a file that is not refused by itself. Refused with 9 where a table has no room for the points and cells, which it then
// carries, and with 13: points and cells are then as lent. Answered with points and cells. On an answer and on 13 the first 2 entries a
// point of `work` are zero, and else it is as lent.
pub fn load(
    file: &[u8],
    s: Blocks,
    points: &mut [u32],
    cells: &mut [u32],
    work: &mut [u32],
) -> Result<Loaded, LoadError>
    requires { Loadable file.now s }
    ensures { Reads [] file.now s points.old cells.old work.old result points.new cells.new work.new }
{
    let p = s.p;
    let n = s.n;
    if !has_room(points.len(), cells.len(), work.len(), p, n) {
        return Err(LoadError::Short(p as u64, n as u64));
    }
    let need = 2 * p;
    if !file_components::numbers_right(file, s, &mut work[..need]) {
        return Err(LoadError::Refused(Refusal::Numbers));
    }
    let numbers = 3 * p;
    let vertices = 4 * n;
    words::get_words(file, s.points, s.big, &mut points[..numbers]);
    words::get_cells(file, s.cells, s.stride, s.big, n, &mut cells[..vertices]);
    Ok(Loaded {
        points: p as u64,
        cells: n as u64,
    })
}
