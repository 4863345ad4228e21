// The step `marks`: what Cover makes of each cell of a grid, one byte a cell: 0 not marked, 1 kept or exchanged, 2 dropped.
#![tactic(auto)]

ghost use Rattle.std.specs.Prelude.{◌≡◌, length, drop, replicate};
ghost use Rattle.sorting.specs.Numbers.{cnt};
ghost use Rattle.volume.specs.Volume.{verdict_at};
ghost use Rattle.marked.specs.Parts.{marked_in};
ghost use Rattle.marks.specs.Marks.{verdict_mark, mark_by};
ghost use Rattle.marks.specs.Step.{MarksDone};
ghost use Rattle.marks.specs.Parts.{MarkAsked, marks_by, StoreAsked, AllMarked, TellAsked, ToldAs};

use refusals::CountError;
use volume::Verdict;

// How many cells are kept, and how many dropped.
#[derive(Clone, Copy, Debug, PartialEq, Eq)]
pub struct Told {
    pub kept: u64,
    pub dropped: u64,
}

// The mark of a cell with this verdict.
// A byte of the table that C reads.
fn mark_of(verdict: Verdict) -> u8
    ensures { result ≡ verdict_mark verdict }
{
    match verdict {
        Verdict::Kept(_) => 1,
        Verdict::Exchanged(_) => 1,
        Verdict::Dropped(_) => 2,
    }
}

// The mark of the cell i, which is marked where its entry of the work is not 0.
fn mark_at(points: &[u32], cells: &[u32], work: &[u32], n: usize, i: usize, least: f32) -> u8
    requires { MarkAsked points.now cells.now work.now n i }
    ensures { result ≡ mark_by (marked_in (drop n work.now) i) (verdict_at points.now cells.now i least) }
{
    if work[n + i] == 0 {
        return 0;
    }
    let cell = mesh::cell_at(cells, i);
    mark_of(volume::verdict_on(volume::corners_at(points, cell), least))
}

// Stores the marks in a table that has one byte a cell.
fn store_marks(points: &[u32], cells: &[u32], marks: &mut [u8], work: &[u32], n: usize, least: f32)
    requires { StoreAsked points.now cells.now marks.old work.now n }
    ensures { marks.new ≡ marks_by points.now cells.now work.now n least }
{
    for (i, mark) in marks.iter_mut().enumerate() {
        *mark = mark_at(points, cells, work, n, i, least);
    }
}

// How many marks are of this kind. A plain loop, so that many are compared at once.
pub fn count(marks: &[u8], kind: u8) -> usize
    ensures { result ≡ cnt kind marks.now }
{
    let mut many: usize = 0;
    for mark in marks {
        if *mark == kind {
            many += 1;
        }
    }
    many
}

// Stores the marks, and counts them.
fn mark_cells(
    points: &[u32],
    cells: &[u32],
    marks: &mut [u8],
    work: &[u32],
    n: usize,
    least: f32,
) -> Told
    requires { StoreAsked points.now cells.now marks.old work.now n }
    ensures { AllMarked (marks_by points.now cells.now work.now n least) result marks.new }
{
    store_marks(points, cells, marks, work, n, least);
    let kept = count(marks, 1);
    let dropped = count(marks, 2);
    Told {
        kept: kept as u64,
        dropped: dropped as u64,
    }
}

// The marks where there is room for them, with a work table of one entry a point and a cell that holds anything and is left zero.
fn tell(
    c: f32,
    points: &[u32],
    cells: &[u32],
    crossing: &[u8],
    probe: &[u8],
    marks: &mut [u8],
    work: &mut [u32],
) -> Result<Told, CountError>
    requires { TellAsked points.now cells.now probe.now work.old }
    ensures { ToldAs c points.now cells.now crossing.now probe.now marks.old result marks.new × (work.new ≡ replicate (length work.old) 0) }
{
    let many = cells.len() / 4;
    if marks.len() < many {
        work.fill(0);
        return Err(CountError::Short(many as u64));
    }
    let n = points.len() / 3;
    keep::mark_inside(cells, crossing, probe, work, n);
    let least = volume::least_volume(c);
    let answer = mark_cells(points, cells, &mut marks[..many], work, n, least);
    work.fill(0);
    Ok(answer)
}

// What `keep_cover` makes of each cell. Refused with 1, 4, 5, 6 or 8: all tables are then as lent. With 9, which carries the cells, where
// `marks` is too short: it is then as lent, and the first entry a point and a cell of `work` is zero, as on an answer, which carries the cells
// kept and the cells dropped.
pub fn marks(
    c: f32,
    points: &[u32],
    cells: &[u32],
    crossing: &[u8],
    probe: &[u8],
    marks: &mut [u8],
    work: &mut [u32],
) -> Result<Told, CountError>
    ensures { MarksDone c points.now cells.now crossing.now probe.now marks.old work.old result marks.new work.new }
{
    keep::judge_cover(c, points.len(), cells, crossing, probe, work.len(), 1)?;
    let need = points.len() / 3 + cells.len() / 4;
    tell(c, points, cells, crossing, probe, marks, &mut work[..need])
}
