// The plan of a grid: from a box, a cell size and a number of levels to an origin, a unit and dimensions.
#![tactic(auto)]

ghost use Rattle.std.specs.Prelude.{◌≡◌, ◌≤◌, ◌^◌};
ghost use Rattle.space.specs.Space.{pos};
ghost use Rattle.space.specs.Levels.{most_levels, off};
ghost use Rattle.plan.specs.Vertices.{place_of, roots_in};
ghost use Rattle.plan.specs.Step.{all_finite, scale_of, stretch_of, axes_of, straight, straight_box, plan_of, fault_number, refusal_of};
ghost use Rattle.plan.specs.Parts.{Small, Few};

use octree::Roots;

// A box: its lower and its upper bounds along x, y and z.
#[repr(C)]
#[derive(Clone, Copy)]
pub struct Bounds {
    pub x0: f32,
    pub y0: f32,
    pub z0: f32,
    pub x1: f32,
    pub y1: f32,
    pub z1: f32,
}

// What holds for all three axes: the margin, what an extent is divided by, the unit, the least and the most that a dimension can
// be, and how many units one of it is wide.
#[derive(Clone, Copy)]
pub struct Scale {
    pub margin: f32,
    pub width: f32,
    pub half: f32,
    pub least: u32,
    pub most: u32,
    pub units: u32,
}

// One axis: its origin and its dimension.
#[derive(Clone, Copy)]
pub struct Stretch {
    pub origin: f32,
    pub count: u32,
}

// The origin, the unit, how many roots (in a lattice, units) stand along each axis, the levels and the length of an octant table.
#[derive(Clone, Copy)]
pub struct Plan {
    pub ox: f32,
    pub oy: f32,
    pub oz: f32,
    pub half: f32,
    pub nx: u32,
    pub ny: u32,
    pub nz: u32,
    pub levels: u32,
    pub octants: u32,
}

// What is too large: the first axis at fault, or the octants alone.
#[derive(Clone, Copy, Debug, PartialEq, Eq)]
pub enum Fault {
    X,
    Y,
    Z,
    Octants,
}

impl Fault {
    // Its number.
    pub fn number(self) -> u32
        ensures { result ≡ fault_number self }
    {
        self as u32
    }
}

// Why there is no plan, and why a step that makes one refuses: a number; 4, with what is at fault.
// A number and not a cause by name: `Planned::refusal` answers 0 where the plan is ready (`plan/Step.refusal_of`).
#[derive(Clone, Copy, Debug, PartialEq, Eq)]
pub enum Refusal {
    Number(u32),
    TooLarge(Fault),
}

// A plan or its refusal. An enum of its own and no `Result`: a rule of the project for the plan's answer.
#[derive(Clone, Copy)]
pub enum Planned {
    Ready(Plan),
    Refused(Refusal),
}

impl Planned {
    // The refusal, with the number 0 where the plan is ready.
    pub fn refusal(self) -> Refusal
        ensures { result ≡ refusal_of self }
    {
        match self {
            Planned::Ready(_) => Refusal::Number(0),
            Planned::Refused(why) => why,
        }
    }
}

#[tactic(auto, unfolding(crate::specs::Step::all_finite))]
fn are_finite(a: f32, b: f32, c: f32, d: f32) -> bool
    ensures { result ≡ all_finite a b c d }
{
    float32::is_finite(a) && float32::is_finite(b) && float32::is_finite(c) && float32::is_finite(d)
}

#[tactic(auto, unfolding(crate::specs::Step::straight))]
fn is_straight(lo: f32, hi: f32) -> bool
    ensures { result ≡ straight lo hi }
{
    float32::is_finite(lo) && float32::is_finite(hi) && !(hi < lo)
}

#[tactic(auto, unfolding(crate::specs::Step::straight_box))]
fn is_box(b: Bounds) -> bool
    ensures { result ≡ straight_box b }
{
    is_straight(b.x0, b.x1) && is_straight(b.y0, b.y1) && is_straight(b.z0, b.z1)
}

// 2 ^ levels
fn width_of(levels: u32) -> u32
    requires { levels ≤ most_levels }
    ensures value { result ≡ 2 ^ levels }
    ensures upper_bound { result ≤ 32 }
{
    1u32 << levels
}

fn scaled(c: f32, levels: u32) -> Scale
    requires { levels ≤ most_levels }
    ensures { result ≡ scale_of c levels }
{
    if levels == 0 {
        return Scale {
            margin: c,
            width: c * 0.5,
            half: c * 0.5,
            least: 2,
            most: Plan::LATTICE,
            units: 1,
        };
    }
    let w = width_of(levels);
    Scale {
        margin: c * 2.0,
        width: c,
        half: (c / (w as f32)) * 0.5,
        least: 1,
        most: Plan::ROOTS,
        units: 2 * w,
    }
}

// One axis of the box, from lo to hi; none where it is too long.
fn along(s: Scale, c: f32, lo: f32, hi: f32) -> Option<Stretch>
    requires { Small s }
    ensures { result ≡ stretch_of s c lo hi }
{
    let min = lo + -c;
    let max = hi + c;
    let origin = min - s.margin;
    let extent = (max - min) + s.margin * 2.0;
    if !are_finite(min, max, origin, extent) {
        return None;
    }
    let most = s.most;
    let n = s.least.max(float32::ceiling(extent / s.width, most));
    if n > most {
        return None;
    }
    let v = n * s.units;
    if !float32::is_finite(origin + (v as f32) * s.half) {
        return None;
    }
    Some(Stretch { origin, count: n })
}

// The octants of the levels from the roots' down to level 1: 1 + 8 + 64 + … to a root.
fn count(nx: u32, ny: u32, nz: u32, levels: u32) -> u64
    requires { Few nx ny nz levels }
    ensures { result ≡ off (pos nx ny nz) levels }
{
    let w = width_of(levels) as u64;
    nx as u64 * ny as u64 * nz as u64 * ((w * w * w - 1) / 7)
}

// The three axes, and the octants.
fn over(s: Scale, b: Bounds, c: f32, levels: u32) -> Planned
    requires small { Small s }
    requires levels_le_most_levels { levels ≤ most_levels }
    ensures { result ≡ axes_of s b c levels }
{
    let Some(x) = along(s, c, b.x0, b.x1) else {
        return Planned::Refused(Refusal::TooLarge(Fault::X));
    };
    let Some(y) = along(s, c, b.y0, b.y1) else {
        return Planned::Refused(Refusal::TooLarge(Fault::Y));
    };
    let Some(z) = along(s, c, b.z0, b.z1) else {
        return Planned::Refused(Refusal::TooLarge(Fault::Z));
    };
    let n = count(x.count, y.count, z.count, levels);
    if n > Plan::OCTANTS as u64 {
        return Planned::Refused(Refusal::TooLarge(Fault::Octants));
    }
    Planned::Ready(Plan {
        ox: x.origin,
        oy: y.origin,
        oz: z.origin,
        half: s.half,
        nx: x.count,
        ny: y.count,
        nz: z.count,
        levels,
        octants: n as u32,
    })
}

// Where v units from the origin stand along an axis, as a bit pattern.
pub fn place(origin: f32, half: f32, v: u32) -> u32
    requires { v ≤ 16777216 }
    ensures { result ≡ place_of origin half v }
{
    float32::from_f32(origin + (v as f32) * half)
}

impl Plan {
    // The most levels, the most units of a lattice and roots of an octree along an axis, and the most octants.
    pub const LEVELS: u32 = 5;

    pub const LATTICE: u32 = 128;

    pub const ROOTS: u32 = 64;

    pub const OCTANTS: u32 = 1_048_576;

    // The plan of a box, or why there is none. Named `new`, the bounds constants of the type: a rule of the project.
    pub fn new(b: Bounds, c: f32, levels: u32) -> Planned
        ensures { result ≡ plan_of b c levels }
    {
        if !float32::is_size(c) {
            return Planned::Refused(Refusal::Number(1));
        }
        if !is_box(b) {
            return Planned::Refused(Refusal::Number(2));
        }
        if levels > Plan::LEVELS {
            return Planned::Refused(Refusal::Number(3));
        }
        over(scaled(c, levels), b, c, levels)
    }

    // Its roots, and the levels below them.
    pub fn roots(self) -> Roots
        ensures { result ≡ roots_in self }
    {
        Roots {
            nx: self.nx as usize,
            ny: self.ny as usize,
            nz: self.nz as usize,
            levels: self.levels as usize,
        }
    }
}
