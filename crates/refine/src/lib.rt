// The step refine: from the crossing answers of octants to the split table.
#![tactic(auto)]

ghost use Rattle.std.specs.Prelude.{◌≡◌, ◌≤◌, length};
ghost use Rattle.refusals.specs.Rows.{first};
ghost use Rattle.refusals.specs.Refusals.{as_number, number_in};
ghost use Rattle.space.specs.Levels.{most_octants};
ghost use Rattle.octants.specs.Table.{total};
ghost use Rattle.refine.specs.Parts.{TableAsked, TableDone};
ghost use Rattle.refine.specs.Step.{crossing_rows, RefineDone};
ghost use Rattle.refine.specs.declared.RefineError.TheVariants.{Refused};
ghost use Rattle.plan.specs.declared.Refusal.TheVariants.{Number};

use octree::Roots;
use plan::{Bounds, Plan, Planned};
use refusals::Refusal;

// Why `refine` gives no table: refused, as a plan is; no room for so many octants.
#[derive(Clone, Copy, Debug, PartialEq, Eq)]
pub enum RefineError {
    Refused(plan::Refusal),
    Short(u64),
}

impl From<Refusal> for RefineError {
    ghost from_gives = { λ why r. r ≡ Refused (Number (as_number why)) };

    fn from(why: Refusal) -> RefineError {
        RefineError::Refused(plan::Refusal::Number(why.number()))
    }
}

// The bytes of one table into another. A loop: `copy_from_slice` would have the archive ask for C's `memmove`.
fn copy(to: &mut [u8], from: &[u8])
    requires { length to.old ≡ length from.now }
    ensures { to.new ≡ from.now }
{
    for (i, entry) in to.iter_mut().enumerate() {
        *entry = from[i];
    }
}

// The sum of the bytes of a table: the number of ones where they are 0 or 1.
fn ones(s: &[u8]) -> usize
    requires { length s.now ≤ most_octants }
    ensures { result ≡ total s.now }
{
    s.iter().map(|x| usize::from(*x)).sum()
}

// What a crossing table for n octants is refused with: 5, 6, or nothing.
fn judge(crossing: &[u8], n: usize) -> Result<(), Refusal>
    ensures { number_in result ≡ first (crossing_rows n crossing.now) }
{
    if crossing.len() != n {
        return Err(Refusal::Length);
    }
    if !lists::all_at_most(crossing, 1) {
        return Err(Refusal::Byte);
    }
    Ok(())
}

// The split table of the crossing answers, and how many octants are split.
fn refine_table(split: &mut [u8], crossing: &[u8], d: Roots) -> usize
    requires { TableAsked d crossing.now split.old }
    ensures { TableDone d crossing.now result split.new }
{
    if d.levels == 0 {
        return 0;
    }
    copy(split, crossing);
    answers::clear(split, d);
    balance::balance(split, d);
    ones(split)
}

// Refines the octree of a box where octants are crossed, and grades it. Refused with 1 to 6, the 4 carrying what the plan's does, and
// with 9 where `split` is shorter than the octants, which it then carries: `split` is then as lent. Answered with how many octants are
// split: `split` begins with their bytes, and is as lent past them.
pub fn refine(
    b: Bounds,
    c: f32,
    levels: u32,
    crossing: &[u8],
    split: &mut [u8],
) -> Result<u64, RefineError>
    ensures { RefineDone b c levels crossing.now split.old result split.new }
{
    let a = Plan::new(b, c, levels);
    let Planned::Ready(p) = a else {
        return Err(RefineError::Refused(a.refusal()));
    };
    let n = p.octants as usize;
    judge(crossing, n)?;
    if split.len() < n {
        return Err(RefineError::Short(n as u64));
    }
    let count = refine_table(&mut split[..n], crossing, p.roots());
    Ok(count as u64)
}
