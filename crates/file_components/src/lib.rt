// Where a file has a mesh, and the component numbers of its cells: written behind the cells, and compared with those that a file has.
#![tactic(auto)]

ghost use Rattle.std.specs.Prelude.{◌≡◌, [], ◌+◌, ◌*◌, ◌≤◌, ◌<◌, length, take};
ghost use Rattle.std.proofs.lemmas.List.Edits.{sets};
ghost use Rattle.mesh.specs.Mesh.{cells_of, Cells};
ghost use Rattle.lists.specs.Tables.{all_below};
ghost use Rattle.words.specs.Words.{bytes_of};
ghost use Rattle.links.specs.Parts.{Forest, JoinedCell, Joint};
ghost use Rattle.components.specs.Parts.{Linked, Fits};
ghost use Rattle.components.specs.Numbers.{component_numbers};
ghost use Rattle.file_components.specs.Blocks.{cells_in, right_numbers};
ghost use Rattle.file_components.specs.Parts.{CellsStand, Stands, Told, Noted};

use mesh::Cell;

// Where a file has a mesh: p points, n cells and m component numbers, each kind from a place on. The words have their high byte first where
// `big` says so, and a cell starts `stride` words behind the one before it.
#[derive(Clone, Copy, Debug, PartialEq, Eq)]
pub struct Blocks {
    pub p: usize,
    pub n: usize,
    pub m: usize,
    pub points: usize,
    pub cells: usize,
    pub numbers: usize,
    pub stride: usize,
    pub big: bool,
}

// Joins the vertices of the cell i.
// The file and its blocks come apart: `CellsStand` is said of them where a reader knows less than all that stands in the file.
fn join_cell(file: &[u8], s: Blocks, parent: &mut [u32], i: usize)
    requires { CellsStand file.now s × Cells (cells_in file.now s) (length parent.old) × Forest parent.old × (i < s.n) }
    ensures { JoinedCell (cells_in file.now s) [] parent.old parent.new i }
{
    let [a, b, c, d] = words::quad_at(file, s.cells + 4 * (s.stride * i), s.big);
    let cell = Cell {
        a: a as usize,
        b: b as usize,
        c: c as usize,
        d: d as usize,
    };
    if links::is_joined(parent, cell) {
        return;
    }
    links::join_four(parent, cell.a, cell.b, cell.c, cell.d);
}

// The groups of the points that cells in a file join, from a table that holds anything. Beside `links::link`, over cells in a table: a
// closure that reads a cell would carry both contracts, and be no plainer.
fn link(file: &[u8], s: Blocks, parent: &mut [u32])
    requires { CellsStand file.now s × Cells (cells_in file.now s) (length parent.old) }
    ensures { Joint (cells_in file.now s) [] parent.new }
{
    links::start(parent);
    for i in 0..s.n {
        join_cell(file, s, parent, i);
    }
}

// Links the points of the cells in the first n entries of the work table, and tells whether all points are in the group of point 0.
fn prepare(file: &[u8], s: Blocks, work: &mut [u32], n: usize) -> bool
    requires { CellsStand file.now s × Cells (cells_in file.now s) n × (length work.old ≡ 2 * n) }
    ensures { Linked (cells_in file.now s) work.new n × (result ≡ all_below 1 (take n work.new)) }
{
    link(file, s, &mut work[..n]);
    components::settle(work, n)
}

// Whether a file has the numbers of its cells by the first appearance of their groups. Where `one` tells that all points are in one group,
// every number is 0.
// A loop beside that of `components`, here and below: as one it would take a closure for the line that differs.
fn compare(file: &[u8], s: Blocks, work: &mut [u32], n: usize, one: bool) -> bool
    requires { Stands file.now s × (s.m ≡ s.n) × Linked (cells_in file.now s) work.old n × (one ≡ all_below 1 (take n work.old)) }
    ensures { result ≡ right_numbers file.now s }
{
    if one {
        return words::all_are(file, s.numbers, s.big, s.n, 0);
    }
    let mut count: usize = 0;
    for i in 0..s.n {
        let v = words::word(file, s.cells + 4 * (s.stride * i), s.big) as usize;
        let k = components::number_at(work, n, v, count);
        if words::word(file, s.numbers + 4 * i, s.big) as usize != k {
            return false;
        }
        if k == count {
            count += 1;
        }
    }
    true
}

// Whether the component numbers that a file has are those of its cells; the work table, 2 entries a point, is left zero.
pub fn numbers_right(file: &[u8], s: Blocks, work: &mut [u32]) -> bool
    requires { Stands file.now s × Fits (cells_in file.now s) work.old }
    ensures { Told file.now s work.old work.new result }
{
    if s.m != s.n {
        work.fill(0);
        return false;
    }
    let n = work.len() / 2;
    let one = prepare(file, s, work, n);
    let right = compare(file, s, work, n, one);
    work.fill(0);
    right
}

// Stores the numbers of the cells by the first appearance of their groups as words from a place on. Where `one` tells that all points are
// in one group, every number is 0.
fn put_each(
    cells: &[u32],
    file: &mut [u8],
    at: usize,
    big: bool,
    work: &mut [u32],
    n: usize,
    one: bool,
)
    requires { Linked cells.now work.old n × (at + 4 * cells_of cells.now ≤ length file.old) × (one ≡ all_below 1 (take n work.old)) }
    ensures { file.new ≡ sets file.old at (bytes_of big (component_numbers cells.now (cells_of cells.now))) }
{
    let many = cells.len() / 4;
    if one {
        words::put_same(file, at, big, many, 0);
        return;
    }
    let mut count: usize = 0;
    for i in 0..many {
        let v = cells[i * 4] as usize;
        let k = components::number_at(work, n, v, count);
        words::put_word(file, at + 4 * i, big, k as u32);
        if k == count {
            count += 1;
        }
    }
}

// Stores the component numbers of the cells as words from a place on; the work table, 2 entries a point, is left zero.
pub fn put_numbers(cells: &[u32], file: &mut [u8], at: usize, big: bool, work: &mut [u32])
    requires { Fits cells.now work.old × (at + 4 * cells_of cells.now ≤ length file.old) }
    ensures { Noted big cells.now at file.old file.new work.old work.new }
{
    let n = work.len() / 2;
    let one = components::prepare(cells, work, n);
    put_each(cells, file, at, big, work, n, one);
    work.fill(0);
}
