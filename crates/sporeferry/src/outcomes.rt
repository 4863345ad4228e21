// A step's outcome as C sees it: a number and values.
ghost use Rattle.std.specs.Prelude.{[], ◌∷◌};
ghost use Rattle.refusals.specs.Refusals.{error_number, error_values};
ghost use Rattle.plan.specs.Step.{refusal_number, refusal_values, no_plan};
ghost use Rattle.plan.specs.declared.Planned.TheVariants.{Refused};
ghost use Rattle.sporeferry.specs.Calls.{Tells, TellsPlan, planned, refined, gridded, counted, piece, kept, told, covered, loaded};

use coverage::{Totals, Uncovered};
use file_steps::{LoadError, Loaded};
use grid::{GridError, Gridded};
use marked::{KeepError, Kept};
use marks::Told;
use plan::{Plan, Planned, Refusal};
use refine::RefineError;
use refusals::CountError;

#[repr(C)]
#[derive(Clone, Copy)]
pub struct PlanAnswer {
    pub number: u32,
    pub value: u32,
    pub ox: f32,
    pub oy: f32,
    pub oz: f32,
    pub half: f32,
    pub nx: u32,
    pub ny: u32,
    pub nz: u32,
    pub octants: u32,
}

#[repr(C)]
#[derive(Clone, Copy)]
pub struct Answer {
    pub number: u32,
    pub first: u64,
    pub second: u64,
    pub third: u64,
}

#[repr(C)]
#[derive(Clone, Copy)]
pub struct CoveredAnswer {
    pub number: u32,
    pub totals: Totals,
}

fn of_ready(p: Plan) -> PlanAnswer
    ensures { TellsPlan 0 0 p result }
{
    PlanAnswer {
        number: 0,
        value: 0,
        ox: p.ox,
        oy: p.oy,
        oz: p.oz,
        half: p.half,
        nx: p.nx,
        ny: p.ny,
        nz: p.nz,
        octants: p.octants,
    }
}

fn no_plan(number: u32, value: u32) -> PlanAnswer
    ensures { TellsPlan number value no_plan result }
{
    PlanAnswer {
        number,
        value,
        ox: 0.0,
        oy: 0.0,
        oz: 0.0,
        half: 0.0,
        nx: 0,
        ny: 0,
        nz: 0,
        octants: 0,
    }
}

fn unplanned(why: Refusal) -> PlanAnswer
    ensures { planned (Refused why) result }
{
    match why {
        Refusal::Number(number) => no_plan(number, 0),
        Refusal::TooLarge(fault) => no_plan(4, fault.number()),
    }
}

impl From<Planned> for PlanAnswer {
    ghost from_gives = { planned };

    fn from(a: Planned) -> PlanAnswer {
        match a {
            Planned::Ready(p) => of_ready(p),
            Planned::Refused(why) => unplanned(why),
        }
    }
}

// A number with one value at most.
fn counts(number: u32, first: u64) -> Answer
    ensures { Tells number (first ∷ []) result }
{
    pair(number, first, 0)
}

// A number with two values.
fn pair(number: u32, first: u64, second: u64) -> Answer
    ensures { Tells number (first ∷ second ∷ []) result }
{
    Answer {
        number,
        first,
        second,
        third: 0,
    }
}

fn of_refusal(why: Refusal) -> Answer
    ensures { Tells (refusal_number why) (refusal_values why) result }
{
    match why {
        Refusal::Number(number) => counts(number, 0),
        Refusal::TooLarge(fault) => counts(4, fault.number() as u64),
    }
}

fn of_error(why: CountError) -> Answer
    ensures { Tells (error_number why) (error_values why) result }
{
    match why {
        CountError::Refused(why) => counts(why.number(), 0),
        CountError::Short(count) => counts(9, count),
    }
}

impl From<Result<u64, RefineError>> for Answer {
    ghost from_gives = { refined };

    fn from(a: Result<u64, RefineError>) -> Answer {
        match a {
            Ok(ones) => counts(0, ones),
            Err(RefineError::Refused(why)) => of_refusal(why),
            Err(RefineError::Short(octants)) => counts(9, octants),
        }
    }
}

impl From<Result<Gridded, GridError>> for Answer {
    ghost from_gives = { gridded };

    fn from(a: Result<Gridded, GridError>) -> Answer {
        match a {
            Ok(grid) => pair(0, grid.cells, grid.vertices),
            Err(GridError::Refused(why)) => of_refusal(why),
            Err(GridError::NoCells(cells)) => counts(9, cells),
            Err(GridError::NoVertices(cells, vertices)) => pair(9, cells, vertices),
        }
    }
}

impl From<Result<u64, CountError>> for Answer {
    ghost from_gives = { counted };

    fn from(a: Result<u64, CountError>) -> Answer {
        match a {
            Ok(count) => counts(0, count),
            Err(why) => of_error(why),
        }
    }
}

impl From<Result<bool, refusals::Refusal>> for Answer {
    ghost from_gives = { piece };

    fn from(a: Result<bool, refusals::Refusal>) -> Answer {
        match a {
            Ok(whole) => counts(0, u64::from(whole)),
            Err(why) => counts(why.number(), 0),
        }
    }
}

impl From<Result<Kept, KeepError>> for Answer {
    ghost from_gives = { kept };

    fn from(a: Result<Kept, KeepError>) -> Answer {
        match a {
            Ok(mesh) => Answer {
                number: 0,
                first: mesh.points,
                second: mesh.cells,
                third: mesh.dropped,
            },
            Err(KeepError::Refused(why)) => counts(why.number(), 0),
            Err(KeepError::Short(points, cells)) => pair(9, points, cells),
        }
    }
}

impl From<Result<Loaded, LoadError>> for Answer {
    ghost from_gives = { loaded };

    fn from(a: Result<Loaded, LoadError>) -> Answer {
        match a {
            Ok(mesh) => pair(0, mesh.points, mesh.cells),
            Err(LoadError::Refused(why)) => counts(why.number(), 0),
            Err(LoadError::Short(points, cells)) => pair(9, points, cells),
        }
    }
}

impl From<Result<Told, CountError>> for Answer {
    ghost from_gives = { told };

    fn from(a: Result<Told, CountError>) -> Answer {
        match a {
            Ok(marks) => pair(0, marks.kept, marks.dropped),
            Err(why) => of_error(why),
        }
    }
}

impl From<Result<Totals, Uncovered>> for CoveredAnswer {
    ghost from_gives = { covered };

    fn from(a: Result<Totals, Uncovered>) -> CoveredAnswer {
        match a {
            Ok(totals) => CoveredAnswer { number: 0, totals },
            Err(kept) => CoveredAnswer {
                number: kept.why.number(),
                totals: kept.totals,
            },
        }
    }
}
