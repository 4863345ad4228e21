// The marked cells weighed, and those that stay stored with the points they use, numbered by first use. In the work table n entries for
// the points stand in front, and behind them one for each cell, which is not 0 where the cell is marked.
#![tactic(auto)]

ghost use Rattle.std.specs.Prelude.{◌≡◌, ◌-◌, ◌<◌, get_or, take, drop, replicate};
ghost use Rattle.mesh.specs.Mesh.{in_order, exchanged};
ghost use Rattle.groups.specs.Parts.{Laid};
ghost use Rattle.marked.specs.declared.KeepError.TheVariants.{Refused};
ghost use Rattle.marked.specs.Parts.{NoteAsked, NotedIn, CornersAsked, CornersNoted, marked_in, WeighAsked, StayAsked, WeighedAs, WeighedAt, Tallied, ordered, CellAsked, CellStored, placed_cells, CellsAsked, PointAsked, PointStored, PointsAsked, PointsStored, KeptMarked};

use mesh::Cell;
use refusals::Refusal;
use volume::Verdict;

// The mesh that is kept: its points, its cells, and the cells dropped.
#[derive(Clone, Copy, Debug, PartialEq, Eq)]
pub struct Kept {
    pub points: u64,
    pub cells: u64,
    pub dropped: u64,
}

// Why no mesh is kept: refused, also where no cell stays; no room for so many points and cells.
#[derive(Clone, Copy, Debug, PartialEq, Eq)]
pub enum KeepError {
    Refused(Refusal),
    Short(u64, u64),
}

impl From<Refusal> for KeepError {
    ghost from_gives = { λ why r. r ≡ Refused why };

    fn from(why: Refusal) -> KeepError {
        KeepError::Refused(why)
    }
}

// Points used, cells kept and cells dropped so far.
#[derive(Clone, Copy)]
struct Counts {
    points: usize,
    cells: usize,
    dropped: usize,
}

// Gives the point v the next number, unless it has one, and answers how many are given.
fn note(numbers: &mut [u32], v: usize, count: usize) -> usize
    requires { NoteAsked numbers.old v count }
    ensures { NotedIn numbers.old numbers.new v count result }
{
    if numbers[v] != 0 {
        return count;
    }
    numbers[v] = (count + 1) as u32;
    count + 1
}

// Notes the points of a cell, in order.
fn note_corners(numbers: &mut [u32], cell: Cell, count: usize) -> usize
    requires { CornersAsked numbers.old cell count }
    ensures { CornersNoted numbers.old numbers.new cell count result }
{
    let one = note(numbers, cell.a, count);
    let two = note(numbers, cell.b, one);
    let three = note(numbers, cell.c, two);
    note(numbers, cell.d, three)
}

// The cell with its first two vertices exchanged.
fn exchange(cell: Cell) -> Cell
    ensures { result ≡ exchanged cell }
{
    Cell {
        a: cell.b,
        b: cell.a,
        c: cell.c,
        d: cell.d,
    }
}

// Counts the cell i as one that stays: its entry is then the code, and its corners are noted in the order that it is stored in.
fn stay(work: &mut [u32], n: usize, i: usize, code: u32, cell: Cell, counts: Counts) -> Counts
    requires { StayAsked work.old n i cell counts }
    ensures { WeighedAs work.old work.new n i counts result code (in_order cell) 0 }
{
    let entry = n + i;
    work[entry] = code;
    let points = note_corners(&mut work[..n], cell, counts.points);
    Counts {
        points,
        cells: counts.cells + 1,
        ..counts
    }
}

// Weighs the cell i where it is marked. Its entry is then 1 where it is kept, 2 where it is exchanged, and 0 where it is dropped: codes, for
// the lent table holds numbers.
fn weigh(
    points: &[u32],
    cells: &[u32],
    work: &mut [u32],
    n: usize,
    i: usize,
    least: f32,
    counts: Counts,
) -> Counts
    requires { WeighAsked points.now cells.now work.old n i counts }
    ensures { WeighedAt points.now cells.now work.old work.new n i least counts result }
{
    let entry = n + i;
    if work[entry] == 0 {
        return counts;
    }
    let cell = mesh::cell_at(cells, i);
    let verdict = volume::verdict_on(volume::corners_at(points, cell), least);
    match verdict {
        Verdict::Kept(_) => stay(work, n, i, 1, cell, counts),
        Verdict::Exchanged(_) => stay(work, n, i, 2, exchange(cell), counts),
        Verdict::Dropped(_) => {
            work[entry] = 0;
            Counts {
                dropped: counts.dropped + 1,
                ..counts
            }
        }
    }
}

// Weighs all cells, from a table of numbers that are all 0.
// `Laid` is of lent tables and one that is written, here and in the steps that keep: no fact of one value.
fn weigh_all(points: &[u32], cells: &[u32], work: &mut [u32], n: usize, least: f32) -> Counts
    requires { Laid points.now cells.now work.old n × (take n work.old ≡ replicate n 0) }
    ensures { Tallied points.now cells.now (drop n work.old) work.new n least result }
{
    let mut counts = Counts {
        points: 0,
        cells: 0,
        dropped: 0,
    };
    for i in 0..cells.len() / 4 {
        counts = weigh(points, cells, work, n, i, least, counts);
    }
    counts
}

// Weighs all cells, from a work table whose first n entries hold anything.
fn tally(points: &[u32], cells: &[u32], work: &mut [u32], n: usize, least: f32) -> Counts
    requires { Laid points.now cells.now work.old n }
    ensures { Tallied points.now cells.now (drop n work.old) work.new n least result }
{
    work[..n].fill(0);
    weigh_all(points, cells, work, n, least)
}

// The place of the point v among those used.
fn place_of(work: &[u32], v: usize) -> u32
    requires { 0 < get_or work.now v 0 }
    ensures { result ≡ get_or work.now v 0 - 1 }
{
    work[v] - 1
}

// A cell in the order that its entry says.
// The code is the number that stands in the lent table.
fn order(code: u32, cell: Cell) -> Cell
    ensures { result ≡ ordered code cell }
{
    if code == 1 {
        return cell;
    }
    exchange(cell)
}

// Stores the cell i as cell k of the mesh, by the places of its points, and answers the next cell; or k, where it does not stay.
fn store_cell(
    cells: &[u32],
    kept_cells: &mut [u32],
    work: &[u32],
    n: usize,
    i: usize,
    k: usize,
) -> usize
    requires { CellAsked cells.now kept_cells.old work.now n i k }
    ensures { CellStored cells.now kept_cells.old kept_cells.new work.now n i k result }
{
    let code = work[n + i];
    if code == 0 {
        return k;
    }
    let cell = order(code, mesh::cell_at(cells, i));
    let a = place_of(work, cell.a);
    let b = place_of(work, cell.b);
    let c = place_of(work, cell.c);
    let d = place_of(work, cell.d);
    lists::store_all(kept_cells, 4 * k, [a, b, c, d]);
    k + 1
}

// Stores the cells that stay in a table that is just as long.
fn store_cells(cells: &[u32], kept_cells: &mut [u32], work: &[u32], n: usize)
    requires { CellsAsked cells.now kept_cells.old work.now n }
    ensures { kept_cells.new ≡ placed_cells cells.now work.now n }
{
    let mut k: usize = 0;
    for i in 0..cells.len() / 4 {
        k = store_cell(cells, kept_cells, work, n, i, k);
    }
}

// Copies the point v, bit for bit, to its place, where it is used.
fn store_point(points: &[u32], kept_points: &mut [u32], numbers: &[u32], v: usize)
    requires { PointAsked points.now kept_points.old numbers.now v }
    ensures { PointStored points.now kept_points.old kept_points.new numbers.now v }
{
    let number = numbers[v] as usize;
    if number == 0 {
        return;
    }
    let at = 3 * v;
    let to = 3 * (number - 1);
    lists::store_all(
        kept_points,
        to,
        [points[at], points[at + 1], points[at + 2]],
    );
}

// Copies the points that are used to a table that is just as long.
fn store_points(points: &[u32], kept_points: &mut [u32], numbers: &[u32])
    requires { PointsAsked points.now kept_points.old numbers.now }
    ensures { PointsStored points.now kept_points.old kept_points.new numbers.now }
{
    for v in 0..numbers.len() {
        store_point(points, kept_points, numbers, v);
    }
}

// Keeps the marked cells, where there is room for all that stay and for their points.
pub fn keep_marked(
    points: &[u32],
    cells: &[u32],
    kept_points: &mut [u32],
    kept_cells: &mut [u32],
    work: &mut [u32],
    n: usize,
    least: f32,
) -> Result<Kept, KeepError>
    requires { Laid points.now cells.now work.old n }
    ensures { KeptMarked points.now cells.now (marked_in (drop n work.old)) least kept_points.old kept_cells.old result kept_points.new kept_cells.new }
{
    let counts = tally(points, cells, work, n, least);
    let used = counts.points;
    let kept = counts.cells;
    if kept_points.len() / 3 < used {
        return Err(KeepError::Short(used as u64, kept as u64));
    }
    if kept_cells.len() / 4 < kept {
        return Err(KeepError::Short(used as u64, kept as u64));
    }
    if kept == 0 {
        return Err(KeepError::Refused(Refusal::NothingKept));
    }
    let point_places = 3 * used;
    let cell_places = 4 * kept;
    store_cells(cells, &mut kept_cells[..cell_places], work, n);
    store_points(points, &mut kept_points[..point_places], &work[..n]);
    Ok(Kept {
        points: used as u64,
        cells: kept as u64,
        dropped: counts.dropped as u64,
    })
}
