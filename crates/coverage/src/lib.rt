// The step `add_coverage`: the six-fold volumes of a grid's cells, kept and in all, added to the totals over many grids.
#![tactic(auto)]

ghost use Rattle.std.specs.Prelude.{◌≡◌, cond, ◌+◌, ◌≤◌, eqb, pos, ◌-ℤ◌, ◌*ℤ◌};
ghost use Rattle.tiling.specs.Volume.{edge, cross, dot};
ghost use Rattle.grid.specs.Whole.{three_at};
ghost use Rattle.tiling.specs.Tables.{six_at};
ghost use Rattle.lists.specs.Runs.{sums};
ghost use Rattle.refusals.specs.Rows.{first};
ghost use Rattle.refusals.specs.Refusals.{number_in};
ghost use Rattle.mesh.specs.Mesh.{cells_of};
ghost use Rattle.coverage.specs.Step.{kept_at, table_rows, CoverageDone};
ghost use Rattle.coverage.specs.Parts.{as_vector, Small, Held, Short, VectorHeld, EdgeAsked, CellAsked, TablesTaken, sums_of, counted_of, added_of};

use refusals::Refusal;

// Cells, those kept, those dropped, and six times the volume of those kept and of all.
#[repr(C)]
#[derive(Clone, Copy, Debug, PartialEq, Eq)]
pub struct Totals {
    pub cells: u64,
    pub kept: u64,
    pub dropped: u64,
    pub sixfold_kept: u64,
    pub sixfold_all: u64,
}

// Why a grid is not added, and the totals as they were.
#[derive(Clone, Copy, Debug, PartialEq, Eq)]
pub struct Uncovered {
    pub why: Refusal,
    pub totals: Totals,
}

// The six-fold volumes of the cells kept, and of all.
#[derive(Clone, Copy)]
struct Sums {
    part: u64,
    all: u64,
}

// A vector by its signed numbers. Beside `volume::Point`: these are whole numbers, whose bounds stand in each clause, those floats, which round.
#[derive(Clone, Copy)]
struct Vector {
    x: i64,
    y: i64,
    z: i64,
}

// From p to q along one axis.
fn along(p: u32, q: u32) -> i64
    requires { (p ≤ 4096) × (q ≤ 4096) }
    ensures { Held 4096 (pos q -ℤ pos p) result }
{
    q as i64 - p as i64
}

// From the vertex p to the vertex q.
fn edge(triples: &[u32], p: usize, q: usize) -> Vector
    requires { EdgeAsked triples.now p q }
    ensures { VectorHeld 4096 (edge (three_at triples.now p) (three_at triples.now q)) result }
{
    let from = 3 * p;
    let to = 3 * q;
    Vector {
        x: along(triples[from], triples[to]),
        y: along(triples[from + 1], triples[to + 1]),
        z: along(triples[from + 2], triples[to + 2]),
    }
}

// a b - c d
fn minor(a: i64, b: i64, c: i64, d: i64) -> i64
    requires { Small 4096 a × Small 4096 b × Small 4096 c × Small 4096 d }
    ensures { Held 33554432 (a *ℤ b -ℤ c *ℤ d) result }
{
    a * b - c * d
}

// u × v
fn cross(u: Vector, v: Vector) -> Vector
    requires { Short 4096 u × Short 4096 v }
    ensures { VectorHeld 33554432 (cross (as_vector u) (as_vector v)) result }
{
    Vector {
        x: minor(u.y, v.z, v.y, u.z),
        y: minor(u.z, v.x, v.z, u.x),
        z: minor(u.x, v.y, v.x, u.y),
    }
}

// u · v
fn dot(u: Vector, v: Vector) -> i64
    requires { Short 33554432 u × Short 4096 v }
    ensures { Held 412316860416 (dot (as_vector u) (as_vector v)) result }
{
    u.x * v.x + u.y * v.y + u.z * v.z
}

// Six times the volume of the cell i.
fn sixfold(triples: &[u32], cells: &[u32], i: usize) -> u64
    requires { CellAsked triples.now cells.now i }
    ensures { result ≡ six_at triples.now cells.now i }
{
    let cell = mesh::cell_at(cells, i);
    let u = edge(triples, cell.a, cell.b);
    let v = edge(triples, cell.a, cell.c);
    let w = edge(triples, cell.a, cell.d);
    dot(cross(u, v), w).unsigned_abs()
}

// What a cell adds to the volume of those kept.
fn part_of(mark: u8, six: u64) -> u64
    ensures { result ≡ cond (eqb mark 1) six 0 }
{
    if mark == 1 { six } else { 0 }
}

// Adds the six-fold volumes of the cells kept to `part`, and those of all cells to `all`, unless one of the sums does not fit.
fn sum_cells(part: u64, all: u64, triples: &[u32], cells: &[u32], marks: &[u8]) -> Option<Sums>
    requires { TablesTaken triples.now cells.now marks.now }
    ensures { result ≡ sums_of (part + sums (cells_of cells.now) (kept_at triples.now cells.now marks.now) 0) (all + sums (cells_of cells.now) (six_at triples.now cells.now) 0) }
{
    let mut part = part;
    let mut all = all;
    for (i, mark) in marks.iter().enumerate() {
        let six = sixfold(triples, cells, i);
        all = all.checked_add(six)?;
        part = part.checked_add(part_of(*mark, six))?;
    }
    Some(Sums { part, all })
}

// What the tables are refused with: 4, 5, 6, 8, 16, or nothing.
fn judge(triples: &[u32], cells: &[u32], marks: &[u8]) -> Result<(), Refusal>
    ensures { number_in result ≡ first (table_rows triples.now cells.now marks.now) }
{
    mesh::judge_sizes(triples.len(), cells.len(), 0, 0, 0)?;
    if marks.len() != cells.len() / 4 {
        return Err(Refusal::Length);
    }
    if !lists::all_at_most(marks, 2) {
        return Err(Refusal::Byte);
    }
    mesh::judge_names(triples.len(), cells)?;
    if !lists::all_below(triples, 4097) {
        return Err(Refusal::Range);
    }
    Ok(())
}

// Counts the cells, those kept and those dropped, unless one of the counts does not fit.
fn add_counts(totals: Totals, marks: &[u8]) -> Option<Totals>
    ensures { result ≡ counted_of totals marks.now }
{
    let cells = totals.cells.checked_add(marks.len() as u64)?;
    let kept = totals.kept.checked_add(marks::count(marks, 1) as u64)?;
    let dropped = totals.dropped.checked_add(marks::count(marks, 2) as u64)?;
    Some(Totals {
        cells,
        kept,
        dropped,
        ..totals
    })
}

// Adds a grid whose tables are not refused, unless a total does not fit.
fn add_cells(
    totals: Totals,
    triples: &[u32],
    cells: &[u32],
    marks: &[u8],
) -> Result<Totals, Uncovered>
    requires { TablesTaken triples.now cells.now marks.now }
    ensures { result ≡ added_of totals triples.now cells.now marks.now }
{
    let over = Uncovered {
        why: Refusal::Range,
        totals,
    };
    let Some(counted) = add_counts(totals, marks) else {
        return Err(over);
    };
    match sum_cells(
        counted.sixfold_kept,
        counted.sixfold_all,
        triples,
        cells,
        marks,
    ) {
        Some(sums) => Ok(Totals {
            sixfold_kept: sums.part,
            sixfold_all: sums.all,
            ..counted
        }),
        None => Err(over),
    }
}

// Adds a grid to the totals: `triples` are its vertices, three numbers each, `cells` name four of them each, and `marks` has a byte a cell:
// 0 not marked, 1 kept or exchanged, 2 dropped. Refused with 4, 5, 6, 8 or 16; the totals then come back as they were handed in.
pub fn add_coverage(
    totals: Totals,
    triples: &[u32],
    cells: &[u32],
    marks: &[u8],
) -> Result<Totals, Uncovered>
    ensures { CoverageDone totals triples.now cells.now marks.now result }
{
    if let Err(why) = judge(triples, cells, marks) {
        return Err(Uncovered { why, totals });
    }
    add_cells(totals, triples, cells, marks)
}
