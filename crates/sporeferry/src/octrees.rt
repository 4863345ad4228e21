// Plans, octrees and grids.
ghost use Rattle.std.specs.Prelude.{◌≡◌};
ghost use Rattle.plan.specs.Step.{plan_of};
ghost use Rattle.refine.specs.Step.{RefineDone};
ghost use Rattle.grid.specs.Step.{GridDone};
ghost use Rattle.sporeferry.specs.Calls.{Called, planned, refined, gridded};

use crate::outcomes::{Answer, PlanAnswer};
use plan::{Bounds, Plan};

pub fn sf_plan(b: Bounds, c: f32, levels: u32) -> PlanAnswer
    ensures { Called planned (λ a. a ≡ plan_of b c levels) result }
{
    PlanAnswer::from(Plan::new(b, c, levels))
}

pub fn sf_refine(b: Bounds, c: f32, levels: u32, crossing: &[u8], split: &mut [u8]) -> Answer
    ensures { Called refined (λ a. RefineDone b c levels crossing.now split.old a split.new) result }
{
    Answer::from(refine::refine(b, c, levels, crossing, split))
}

pub fn sf_grid(
    b: Bounds,
    c: f32,
    levels: u32,
    split: &[u8],
    cells: &mut [u32],
    triples: &mut [u32],
    points: &mut [u32],
    work: &mut [u64],
) -> Answer
    ensures { Called gridded (λ a. GridDone b c levels split.now cells.old triples.old points.old work.old a cells.new triples.new points.new work.new) result }
{
    Answer::from(grid::grid(b, c, levels, split, cells, triples, points, work))
}
