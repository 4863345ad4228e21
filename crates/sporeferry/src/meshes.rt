// The steps on meshes.
ghost use Rattle.components.specs.Step.{ComponentsDone};
ghost use Rattle.pieces.specs.Step.{FaceComponentsDone, OnePieceDone};
ghost use Rattle.representatives.specs.Step.{RepresentativesDone};
ghost use Rattle.keep.specs.Step.{KeepDone, cover_of, cover_cells, crust_of, crust_cells};
ghost use Rattle.marks.specs.Step.{MarksDone};
ghost use Rattle.coverage.specs.Step.{CoverageDone};
ghost use Rattle.sporeferry.specs.Calls.{Called, counted, piece, kept, told, covered};

use crate::outcomes::{Answer, CoveredAnswer};
use coverage::Totals;

pub fn sf_representatives(
    points: &[u32],
    cells: &[u32],
    crossing: &[u8],
    numbers: &mut [u32],
    centroids: &mut [u32],
    work: &mut [u32],
) -> Answer
    ensures { Called counted (λ a. RepresentativesDone points.now cells.now crossing.now numbers.old centroids.old work.old a numbers.new centroids.new work.new) result }
{
    Answer::from(representatives::representatives(
        points, cells, crossing, numbers, centroids, work,
    ))
}

pub fn sf_keep_cover(
    c: f32,
    points: &[u32],
    cells: &[u32],
    crossing: &[u8],
    probe: &[u8],
    kept_points: &mut [u32],
    kept_cells: &mut [u32],
    work: &mut [u32],
) -> Answer
    ensures { Called kept (λ a. KeepDone (cover_of c points.now cells.now crossing.now probe.now kept_points.old kept_cells.old work.old) points.now cells.now (cover_cells c points.now cells.now crossing.now probe.now) kept_points.old kept_cells.old work.old a kept_points.new kept_cells.new work.new) result }
{
    Answer::from(keep::keep_cover(
        c,
        points,
        cells,
        crossing,
        probe,
        kept_points,
        kept_cells,
        work,
    ))
}

pub fn sf_keep_crust(
    c: f32,
    points: &[u32],
    cells: &[u32],
    crossing: &[u8],
    kept_points: &mut [u32],
    kept_cells: &mut [u32],
    work: &mut [u32],
) -> Answer
    ensures { Called kept (λ a. KeepDone (crust_of c points.now cells.now crossing.now kept_points.old kept_cells.old work.old) points.now cells.now (crust_cells c points.now cells.now crossing.now) kept_points.old kept_cells.old work.old a kept_points.new kept_cells.new work.new) result }
{
    Answer::from(keep::keep_crust(c, points, cells, crossing, kept_points, kept_cells, work))
}

pub fn sf_components(points: &[u32], cells: &[u32], numbers: &mut [u32], work: &mut [u32]) -> Answer
    ensures { Called counted (λ a. ComponentsDone points.now cells.now numbers.old work.old a numbers.new work.new) result }
{
    Answer::from(components::components(points, cells, numbers, work))
}

pub fn sf_face_components(
    points: &[u32],
    cells: &[u32],
    numbers: &mut [u32],
    work: &mut [u32],
) -> Answer
    ensures { Called counted (λ a. FaceComponentsDone points.now cells.now numbers.old work.old a numbers.new work.new) result }
{
    Answer::from(pieces::face_components(points, cells, numbers, work))
}

pub fn sf_one_piece(points: &[u32], cells: &[u32], work: &mut [u32]) -> Answer
    ensures { Called piece (λ a. OnePieceDone points.now cells.now work.old a work.new) result }
{
    Answer::from(pieces::one_piece(points, cells, work))
}

pub fn sf_marks(
    c: f32,
    points: &[u32],
    cells: &[u32],
    crossing: &[u8],
    probe: &[u8],
    marks: &mut [u8],
    work: &mut [u32],
) -> Answer
    ensures { Called told (λ a. MarksDone c points.now cells.now crossing.now probe.now marks.old work.old a marks.new work.new) result }
{
    Answer::from(marks::marks(c, points, cells, crossing, probe, marks, work))
}

pub fn sf_add_coverage(
    totals: Totals,
    triples: &[u32],
    cells: &[u32],
    marks: &[u8],
) -> CoveredAnswer
    ensures { Called covered (λ a. CoverageDone totals triples.now cells.now marks.now a) result }
{
    CoveredAnswer::from(coverage::add_coverage(totals, triples, cells, marks))
}
