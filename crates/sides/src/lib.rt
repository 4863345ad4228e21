// Finds in the split table what stands beside a leaf of a graded octree, by local tests: two bytes decide a side, parity the
// rotation, two octants a midpoint.
#![tactic(auto)]

ghost use Rattle.std.specs.Prelude.{◌≡◌, ◌^◌, ◌≤◌, ◌<◌, length};
ghost use Rattle.space.specs.Levels.{most_levels, most_roots, Counts};
ghost use Rattle.octree.specs.Parts.{roots_of, Held};
ghost use Rattle.octree_cells.specs.Cells.{reaches, stepped};
ghost use Rattle.octree_cells.specs.Leaf.{turn_at};
ghost use Rattle.sides.specs.Parts.{Taken, LeafIn, cells_at, sides_of, axis_of, split_in, either_in, equal_in, beside_in, level_of, around_of, HeldAround, Near, given_at};

use octree::{Level, Octant, Roots, along, hits, level_at};

// Whether each edge of a face has a finer vertex at its midpoint.
#[derive(Clone, Copy)]
pub struct Edges {
    pub e0: bool,
    pub e1: bool,
    pub e2: bool,
    pub e3: bool,
}

// What stands beside a leaf at one of its faces.
#[derive(Clone, Copy)]
pub enum Beside {
    Split,
    // a leaf of equal level on the positive side
    Equal(Edges),
    // one on the negative side, which gives the cells between the two
    Given,
    // with the corner of the face that is the centre of the coarse one: a number, since the face is turned so many times
    Coarser(u64),
    Border,
}

// By axis, the negative side first.
#[derive(Clone, Copy)]
pub struct Sides {
    pub x0: Beside,
    pub x1: Beside,
    pub y0: Beside,
    pub y1: Beside,
    pub z0: Beside,
    pub z1: Beside,
}

#[derive(Clone, Copy)]
enum Axis {
    X,
    Y,
    Z,
}

// What is read around a leaf: its level and the one above. A level without bytes has no octants.
#[derive(Clone, Copy)]
struct Around {
    here: Level,
    above: Level,
    root: bool,
}

// A leaf's place from an axis on: u along it, where its level has n octants, v along the next axis, w along the one after it.
#[derive(Clone, Copy)]
struct Spot {
    axis: Axis,
    n: usize,
    u: usize,
    v: usize,
    w: usize,
}

// Whether the octant at u along an axis, v along the next and w along the one after it is there and split. `Held` is of the table and one of
// its levels, and a leaf is asked beside two of them.
fn split_in(split: &[u8], level: Level, axis: Axis, u: usize, v: usize, w: usize) -> bool
    requires { Held split.now level }
    ensures { result ≡ split_in split.now level (axis_of axis) u v w }
{
    match axis {
        Axis::X => hits(split, level, u, v, w),
        Axis::Y => hits(split, level, w, u, v),
        Axis::Z => hits(split, level, v, w, u),
    }
}

// Whether this octant or the next one along the axis is split.
fn either_in(split: &[u8], level: Level, axis: Axis, u: usize, v: usize, w: usize) -> bool
    requires { Held split.now level × (u < 2 ^ 32) }
    ensures { result ≡ either_in split.now level (axis_of axis) u v w }
{
    if split_in(split, level, axis, u, v, w) {
        return true;
    }
    split_in(split, level, axis, u + 1, v, w)
}

// One step along an axis; a step down from 0 stays.
fn step_to(u: usize, high: bool) -> usize
    requires { u < 2 ^ 32 }
    ensures { result ≡ stepped high u }
{
    if high { u + 1 } else { u.saturating_sub(1) }
}

// Whether there is an octant one step along an axis with n of them.
fn reach(n: usize, high: bool, u: usize) -> bool
    requires { u < 2 ^ 32 }
    ensures { result ≡ reaches n high u }
{
    if high { u + 1 < n } else { 0 < u }
}

// The corner of a face that is the centre of the coarser face beside it.
fn turn_of(v: usize, w: usize) -> u64
    ensures { result ≡ turn_at v w }
{
    if v % 2 == 1 {
        if w % 2 == 1 {
            return 0;
        }
        return 3;
    }
    if w % 2 == 1 {
        return 1;
    }
    2
}

// A neighbour of equal level: the octants beside each edge of the face, its own two left out.
fn equal_of(split: &[u8], here: Level, p: Spot, high: bool) -> Beside
    requires { Held split.now here × Near p }
    ensures { result ≡ equal_in split.now here (axis_of p.axis) p.u p.v p.w high }
{
    if !high {
        return Beside::Given;
    }
    let axis = p.axis;
    let u = p.u;
    let v = p.v;
    let w = p.w;
    let e0 = either_in(split, here, axis, u, v, step_to(w, false));
    let e1 = either_in(split, here, axis, u, v + 1, w);
    let e2 = either_in(split, here, axis, u, v, w + 1);
    let e3 = either_in(split, here, axis, u, step_to(v, false), w);
    Beside::Equal(Edges { e0, e1, e2, e3 })
}

// What stands beside a leaf on a side of an axis.
fn side_of(split: &[u8], l: Around, p: Spot, high: bool) -> Beside
    requires { HeldAround split.now l × Near p }
    ensures { result ≡ beside_in split.now l p.n (axis_of p.axis) p.u p.v p.w high }
{
    let here = l.here;
    let above = l.above;
    let v = p.v;
    let w = p.w;
    if !reach(p.n, high, p.u) {
        return Beside::Border;
    }
    let y = step_to(p.u, high);
    if split_in(split, here, p.axis, y, v, w) {
        return Beside::Split;
    }
    if l.root {
        return equal_of(split, here, p, high);
    }
    if split_in(split, above, p.axis, y / 2, v / 2, w / 2) {
        return equal_of(split, here, p, high);
    }
    Beside::Coarser(turn_of(v, w))
}

// A level of the table over these roots.
fn level_of(d: Roots, m: usize) -> Level
    requires { Counts most_roots (roots_of d) × (d.levels ≤ most_levels) }
    ensures { result ≡ level_of (roots_of d) d.levels m }
{
    if m == 0 {
        return Level {
            start: 0,
            nx: 0,
            ny: 0,
            nz: 0,
        };
    }
    level_at(d, d.levels.saturating_sub(m))
}

// What is read around a leaf of level m.
fn around_of(d: Roots, m: usize) -> Around
    requires { Counts most_roots (roots_of d) × (d.levels ≤ most_levels) × (m ≤ most_levels) }
    ensures { result ≡ around_of (roots_of d) d.levels m }
{
    let here = level_of(d, m);
    let above = level_of(d, m + 1);
    Around {
        here,
        above,
        root: m == d.levels,
    }
}

// The six sides of a leaf. The table and its roots come apart, here and in what lists and stores leaves: a clause names each of the two three
// to five times, and of one struct each name would be twice as long.
pub fn sides_at(split: &[u8], d: Roots, o: Octant) -> Sides
    requires { Taken split.now d × LeafIn split.now d o }
    ensures { result ≡ sides_of split.now d o }
{
    let l = around_of(d, o.level);
    let w = along(1, d.levels - o.level);
    let x = Spot {
        axis: Axis::X,
        n: d.nx * w,
        u: o.x,
        v: o.y,
        w: o.z,
    };
    let y = Spot {
        axis: Axis::Y,
        n: d.ny * w,
        u: o.y,
        v: o.z,
        w: o.x,
    };
    let z = Spot {
        axis: Axis::Z,
        n: d.nz * w,
        u: o.z,
        v: o.x,
        w: o.y,
    };
    let x0 = side_of(split, l, x, false);
    let x1 = side_of(split, l, x, true);
    let y0 = side_of(split, l, y, false);
    let y1 = side_of(split, l, y, true);
    let z0 = side_of(split, l, z, false);
    let z1 = side_of(split, l, z, true);
    Sides {
        x0,
        x1,
        y0,
        y1,
        z0,
        z1,
    }
}

// How many cells a leaf gives at a face.
fn given_at(side: Beside) -> usize
    ensures { (result ≡ given_at side) × (result ≤ 8) }
{
    match side {
        Beside::Split => 8,
        Beside::Equal(e) => {
            4 + usize::from(e.e0) + usize::from(e.e1) + usize::from(e.e2) + usize::from(e.e3)
        }
        Beside::Given => 0,
        Beside::Coarser(_) => 2,
        Beside::Border => 2,
    }
}

// How many cells a leaf gives.
pub fn count_leaf(split: &[u8], d: Roots, o: Octant) -> usize
    requires { Taken split.now d × LeafIn split.now d o }
    ensures { result ≡ length (cells_at split.now d o) }
{
    let f = sides_at(split, d, o);
    given_at(f.x0)
        + given_at(f.x1)
        + (given_at(f.y0) + given_at(f.y1))
        + (given_at(f.z0) + given_at(f.z1))
}
