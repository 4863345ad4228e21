// The steps `keep_cover` and `keep_crust`: the cells that the surface crosses, with those inside or without them, as a mesh of its own.
#![tactic(auto)]

ghost use Rattle.std.specs.Prelude.{◌≡◌, ◌≤◌, ◌<◌, length, take};
ghost use Rattle.lists.specs.Tests.{bit};
ghost use Rattle.refusals.specs.Rows.{first};
ghost use Rattle.refusals.specs.Refusals.{number_in};
ghost use Rattle.mesh.specs.Mesh.{points_of, cells_of};
ghost use Rattle.groups.specs.Parts.{Sized, Laid};
ghost use Rattle.keep.specs.Marked.{crust_mark, cover_mark};
ghost use Rattle.keep.specs.Step.{crust_rows, cover_rows, CrustDone, CoverDone};
ghost use Rattle.keep.specs.Parts.{cover_in, ProbeAsked, CoverAsked, MarksOf, InsideAsked, front_of, RestKept};

use marked::{KeepError, Kept};
use refusals::Refusal;

// What Crust is refused with, where `points` is the length of the table of points and `room` that of the work: 1, 4, 5, 6, 8, or nothing.
fn judge_crust(
    c: f32,
    points: usize,
    cells: &[u32],
    crossing: &[u8],
    room: usize,
) -> Result<(), Refusal>
    ensures { number_in result ≡ first (crust_rows c points cells.now crossing.now room) }
{
    if !float32::is_size(c) {
        return Err(Refusal::CellSize);
    }
    groups::judge(points, cells, crossing, room, 1, 2)
}

// The same with a probe table, for a step that asks one work entry a cell and `b` a point.
pub fn judge_cover(
    c: f32,
    points: usize,
    cells: &[u32],
    crossing: &[u8],
    probe: &[u8],
    room: usize,
    b: usize,
) -> Result<(), Refusal>
    requires { b ≤ 2 }
    ensures { number_in result ≡ first (cover_rows c points cells.now crossing.now probe.now room b) }
{
    if !float32::is_size(c) {
        return Err(Refusal::CellSize);
    }
    mesh::judge_sizes(points, cells.len(), room, 1, b)?;
    if crossing.len() != cells.len() / 4 {
        return Err(Refusal::Length);
    }
    if probe.len() != cells.len() / 4 {
        return Err(Refusal::Length);
    }
    if !lists::all_at_most(crossing, 1) {
        return Err(Refusal::Byte);
    }
    if !lists::all_at_most(probe, 1) {
        return Err(Refusal::Byte);
    }
    mesh::judge_names(points, cells)
}

// 1 where Crust keeps the cell i: it is crossed.
fn crust_mark(crossing: &[u8], i: usize) -> u32
    requires { i < length crossing.now }
    ensures { result ≡ bit (crust_mark crossing.now i) }
{
    u32::from(crossing[i] != 0)
}

// 1 where Cover keeps the cell i: it is crossed, or the probe answer of the highest cell of its group is 1.
fn cover_mark(crossing: &[u8], probe: &[u8], work: &[u32], n: usize, i: usize) -> u32
    requires { ProbeAsked crossing.now probe.now work.now n i }
    ensures { result ≡ bit (cover_in crossing.now probe.now work.now n i) }
{
    if !links::is_free(crossing, i) {
        return 1;
    }
    let label = groups::label_at(work, n, i);
    u32::from(probe[label] != 0)
}

// Marks the cells that Crust keeps, in the entries behind the first n.
fn mark_crust(cells: &[u32], crossing: &[u8], work: &mut [u32], n: usize)
    requires { Sized cells.now work.old n × (length crossing.now ≡ cells_of cells.now) }
    ensures { MarksOf (crust_mark crossing.now) cells.now work.new n }
{
    for i in 0..cells.len() / 4 {
        work[n + i] = crust_mark(crossing, i);
    }
}

// Marks the cells that Cover keeps, in the entries behind the first n, which had the groups. A loop of its own: of
// a closure that reads the table a clause would have to say that the front of the table stays as it is.
fn mark_cover(cells: &[u32], crossing: &[u8], probe: &[u8], work: &mut [u32], n: usize)
    requires { CoverAsked cells.now crossing.now probe.now work.old n }
    ensures { MarksOf (cover_mark cells.now crossing.now probe.now (cells_of cells.now)) cells.now work.new n }
{
    for i in 0..cells.len() / 4 {
        let mark = cover_mark(crossing, probe, work, n, i);
        work[n + i] = mark;
    }
}

// Finds the groups, and marks the cells that Cover keeps, from a work table that holds anything.
pub fn mark_inside(cells: &[u32], crossing: &[u8], probe: &[u8], work: &mut [u32], n: usize)
    requires { InsideAsked cells.now probe.now work.old n }
    ensures { MarksOf (cover_mark cells.now crossing.now probe.now (cells_of cells.now)) cells.now work.new n }
{
    groups::settle(cells, crossing, work, n);
    mark_cover(cells, crossing, probe, work, n);
}

// Keeps the cells that the front of the work marks, and leaves the work zero.
fn keep_rest(
    c: f32,
    points: &[u32],
    cells: &[u32],
    kept_points: &mut [u32],
    kept_cells: &mut [u32],
    work: &mut [u32],
) -> Result<Kept, KeepError>
    requires { Laid points.now cells.now (take (front_of points.now cells.now) work.old) (points_of points.now) }
    ensures { RestKept c points.now cells.now kept_points.old kept_cells.old work.old result kept_points.new kept_cells.new work.new }
{
    let n = points.len() / 3;
    let front = n + cells.len() / 4;
    let least = volume::least_volume(c);
    let answer = marked::keep_marked(
        points,
        cells,
        kept_points,
        kept_cells,
        &mut work[..front],
        n,
        least,
    );
    work.fill(0);
    answer
}

// The mesh of the crossed cells and of those inside. Refused with 1, 4, 5, 6 or 8: all tables are then as lent. With 9, which carries the
// points and cells needed, where one of the result tables is too short, and with 10 where nothing is kept: these are then as lent, and the
// first entry a cell and two a point of `work` are zero, as on an answer, which carries the points, the cells, and the cells dropped.
pub fn keep_cover(
    c: f32,
    points: &[u32],
    cells: &[u32],
    crossing: &[u8],
    probe: &[u8],
    kept_points: &mut [u32],
    kept_cells: &mut [u32],
    work: &mut [u32],
) -> Result<Kept, KeepError>
    ensures { CoverDone c points.now cells.now crossing.now probe.now kept_points.old kept_cells.old work.old result kept_points.new kept_cells.new work.new }
{
    judge_cover(c, points.len(), cells, crossing, probe, work.len(), 2)?;
    let n = points.len() / 3;
    let many = cells.len() / 4;
    let front = n + many;
    let need = many + 2 * n;
    mark_inside(cells, crossing, probe, &mut work[..front], n);
    keep_rest(c, points, cells, kept_points, kept_cells, &mut work[..need])
}

// The mesh of the crossed cells alone, without a probe table; else as `keep_cover`.
pub fn keep_crust(
    c: f32,
    points: &[u32],
    cells: &[u32],
    crossing: &[u8],
    kept_points: &mut [u32],
    kept_cells: &mut [u32],
    work: &mut [u32],
) -> Result<Kept, KeepError>
    ensures { CrustDone c points.now cells.now crossing.now kept_points.old kept_cells.old work.old result kept_points.new kept_cells.new work.new }
{
    judge_crust(c, points.len(), cells, crossing, work.len())?;
    let n = points.len() / 3;
    let many = cells.len() / 4;
    let front = n + many;
    let need = many + 2 * n;
    mark_crust(cells, crossing, &mut work[..front], n);
    keep_rest(c, points, cells, kept_points, kept_cells, &mut work[..need])
}
