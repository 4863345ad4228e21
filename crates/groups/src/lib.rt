// The groups of the cells that are not crossed, and the highest cell of each, in one work table: n entries for the points, and behind
// them one for each cell.
#![tactic(auto)]

ghost use Rattle.std.specs.Prelude.{◌≡◌, ◌+◌, ◌≤◌, ◌<◌, length, get_or};
ghost use Rattle.refusals.specs.Rows.{first};
ghost use Rattle.refusals.specs.Refusals.{number_in};
ghost use Rattle.groups.specs.Judged.{crossed_rows};
ghost use Rattle.groups.specs.Parts.{RootAsked, RootNoted, Linked, Rooting, LastAsked, LastNoted, Sized, Labelled};

use refusals::Refusal;

// What a mesh with crossing answers is refused with by a step that asks `a` work entries a cell and `b` a point, and has `room` of them:
// 4, 5, 6, 8, or nothing. `points` is the length of the table of points.
pub fn judge(
    points: usize,
    cells: &[u32],
    crossing: &[u8],
    room: usize,
    a: usize,
    b: usize,
) -> Result<(), Refusal>
    requires { (a ≤ 16) × (b ≤ 2) }
    ensures { number_in result ≡ first (crossed_rows points cells.now crossing.now room a b) }
{
    mesh::judge_sizes(points, cells.len(), room, a, b)?;
    if crossing.len() != cells.len() / 4 {
        return Err(Refusal::Length);
    }
    if !lists::all_at_most(crossing, 1) {
        return Err(Refusal::Byte);
    }
    mesh::judge_names(points, cells)
}

// Stores the root of the cell's first vertex in the cell's entry, unless the cell is crossed.
fn note_root(cells: &[u32], crossing: &[u8], work: &mut [u32], n: usize, i: usize)
    requires { RootAsked cells.now work.old n i }
    ensures { RootNoted cells.now crossing.now work.old work.new n i }
{
    if !links::is_free(crossing, i) {
        return;
    }
    let v = cells[i * 4] as usize;
    let root = links::root(&mut work[..n], v);
    let at = n + i;
    work[at] = root as u32;
}

// Stores the roots of the cells that are not crossed.
fn note_roots(cells: &[u32], crossing: &[u8], work: &mut [u32], n: usize)
    requires { Linked cells.now crossing.now work.old n }
    ensures { Rooting cells.now crossing.now work.new n }
{
    for i in 0..cells.len() / 4 {
        note_root(cells, crossing, work, n, i);
    }
}

// Stores the cell's number in the entry of its root, unless the cell is crossed.
fn note_last(crossing: &[u8], work: &mut [u32], n: usize, i: usize)
    requires { LastAsked crossing.now work.old n i }
    ensures { LastNoted crossing.now work.old work.new n i }
{
    if !links::is_free(crossing, i) {
        return;
    }
    let at = n + i;
    let root = work[at] as usize;
    work[root] = i as u32;
}

// Walks the cells upwards, so that the highest of each group stands in the entry of its root at the end.
fn note_lasts(cells: &[u32], crossing: &[u8], work: &mut [u32], n: usize)
    requires { Rooting cells.now crossing.now work.old n }
    ensures { Labelled cells.now crossing.now work.new n }
{
    for i in 0..cells.len() / 4 {
        note_last(crossing, work, n, i);
    }
}

// Finds the groups of the cells that are not crossed, from a work table that holds anything.
// What is known of the work table changes from step to step, so it stands in the clauses and in no type.
pub fn settle(cells: &[u32], crossing: &[u8], work: &mut [u32], n: usize)
    requires { Sized cells.now work.old n }
    ensures { Labelled cells.now crossing.now work.new n }
{
    links::link(cells, crossing, &mut work[..n]);
    note_roots(cells, crossing, work, n);
    note_lasts(cells, crossing, work, n);
}

// The number that stands in the entry of the root of cell i: the highest cell of its group.
pub fn label_at(work: &[u32], n: usize, i: usize) -> usize
    requires { (n + i < length work.now) × (get_or work.now (n + i) 0 < length work.now) }
    ensures { result ≡ get_or work.now (get_or work.now (n + i) 0) 0 }
{
    let root = work[n + i] as usize;
    work[root] as usize
}
