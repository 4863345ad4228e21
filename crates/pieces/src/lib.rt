// The steps `face_components` and `one_piece`: which cells of a mesh hang together through whole faces.
#![tactic(auto)]

ghost use Rattle.std.specs.Prelude.{◌/◌, length};
ghost use Rattle.pieces.specs.Parts.{NextAsked, NextJoined, LinkAsked, Linked, NumberAsked, Numbered, Fits, Listed};
ghost use Rattle.pieces.specs.Step.{FaceComponentsDone, OnePieceDone};

use refusals::{CountError, Refusal};

// Joins the cells of owner i of those that are sorted and of the one before it, where they have one face.
fn join_next(cells: &[u32], work: &mut [u32], at: usize, i: usize)
    requires { NextAsked cells.now work.old at i }
    ensures { NextJoined cells.now work.old work.new at i }
{
    let j = i - 1;
    let p = work[at + j] as usize;
    let q = work[at + i] as usize;
    if !faces::same_face(cells, p, q) {
        return;
    }
    let a = 2 * cells.len();
    let e = a + cells.len() / 4;
    links::join(&mut work[a..e], p / 4, q / 4);
}

// Joins the cells that share a face, from owners that are sorted by face.
fn link(cells: &[u32], work: &mut [u32], at: usize, points: usize)
    requires { LinkAsked cells.now work.old points at }
    ensures { Linked cells.now work.old work.new }
{
    let n = cells.len();
    let a = 2 * n;
    let e = a + n / 4;
    links::start(&mut work[a..e]);
    for i in 1..n {
        join_next(cells, work, at, i);
    }
}

// Numbers the cells by the first appearance of their groups, and answers how many groups there are. The first half of the work lent are
// the parents of the cells. As one with the loop over first points in `components` it would take a closure, for the line that differs.
fn number_cells(numbers: &mut [u32], work: &mut [u32]) -> usize
    requires { NumberAsked work.old }
    ensures { Numbered work.old numbers.old numbers.new (length work.old / 2) result }
{
    let many = work.len() / 2;
    components::settle(work, many);
    let mut count: usize = 0;
    for i in 0..many {
        let k = components::number_at(work, many, i, count);
        if k == count {
            count += 1;
        }
        lists::store(numbers, i, k as u32);
    }
    count
}

// The numbers by faces, with a work table of 16 entries a cell that holds anything and is left zero.
fn number_all(cells: &[u32], numbers: &mut [u32], work: &mut [u32], points: usize) -> usize
    requires { Fits cells.now work.old points }
    ensures { Listed cells.now numbers.old numbers.new work.old work.new result }
{
    let at = faces::sort(cells, work, points);
    link(cells, work, at, points);
    let a = 2 * cells.len();
    let e = a + cells.len() / 2;
    let count = number_cells(numbers, &mut work[a..e]);
    work.fill(0);
    count
}

// The numbers by faces of a mesh. Refused with 4, 5, 8 or 17, and with 9 where `numbers` is shorter than the cells, which it then carries:
// both tables are then as lent. Answered with how many numbers there are: the first 16 entries a cell of `work` are then zero.
pub fn face_components(
    points: &[u32],
    cells: &[u32],
    numbers: &mut [u32],
    work: &mut [u32],
) -> Result<u64, CountError>
    ensures { FaceComponentsDone points.now cells.now numbers.old work.old result numbers.new work.new }
{
    faces::judge(points.len(), cells, work.len())?;
    let many = cells.len() / 4;
    if numbers.len() < many {
        return Err(CountError::Short(many as u64));
    }
    let need = 16 * many;
    let count = number_all(
        cells,
        &mut numbers[..many],
        &mut work[..need],
        points.len() / 3,
    );
    Ok(count as u64)
}

// Whether a mesh has exactly one number by faces. Refused with 4, 5, 8 or 17, `work` as lent; else its first 16 entries a cell are zero.
pub fn one_piece(points: &[u32], cells: &[u32], work: &mut [u32]) -> Result<bool, Refusal>
    ensures { OnePieceDone points.now cells.now work.old result work.new }
{
    let room = work.len();
    faces::judge(points.len(), cells, room)?;
    let need = 16 * (cells.len() / 4);
    let count = number_all(cells, &mut [], &mut work[..need], points.len() / 3);
    Ok(count == 1)
}
