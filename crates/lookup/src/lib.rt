// The leaf that covers an octant, and the vertices that finer leaves put beside one.
#![tactic(auto)]

ghost use Rattle.std.specs.Prelude.{◌≡◌, ◌+◌, ◌*◌, ◌/◌, ◌≤◌, ◌<◌};
ghost use Rattle.space.specs.Space.{pos};
ghost use Rattle.space.specs.Levels.{most_levels};
ghost use Rattle.octants.specs.Oct.{In, width as width_of};
ghost use Rattle.octree.specs.Parts.{roots_of, place_of, tree_of};
ghost use Rattle.octree_cells.specs.Cells.{at_most, is_leaf, leaf_at, leaf_around, on_grid, finer};
ghost use Rattle.lookup.specs.Parts.{ancestor_of, descent_of, covered_of};

use octree::{Octant, Octree, is_inside, is_split, level_at};

// The leaf that covers an octant; split, so that several leaves cover it; or out of range. No `Option`: the two without a leaf are told apart.
#[derive(Clone, Copy)]
pub enum Covered {
    Leaf(Octant),
    Split,
    Outside,
}

// The width of an octant of level m, in vertex coordinates: a finest octant is two of them wide.
pub fn width(m: usize) -> usize
    requires { m ≤ most_levels }
    ensures { (result ≡ width_of m) × (result ≤ 64) }
{
    2usize << m
}

// Along an axis: where the low (o = 0) or the high (o = 1) corner of an octant of level m at x stands.
pub fn corner(m: usize, x: usize, o: usize) -> usize
    requires { (m ≤ most_levels) × (x < 65536) × (o ≤ 1) }
    ensures { result ≡ (x + o) * width_of m }
{
    (x + o) * width(m)
}

// Along an axis: where its centre stands.
pub fn centre(m: usize, x: usize) -> usize
    requires { (m ≤ most_levels) × (x < 65536) }
    ensures { result ≡ x * width_of m + width_of m / 2 }
{
    let w = width(m);
    x * w + w / 2
}

// The ancestor of an octant, k levels up.
fn ancestor(o: Octant, k: usize) -> Octant
    requires { o.level + k ≤ most_levels }
    ensures { result ≡ ancestor_of k o }
{
    Octant {
        level: o.level + k,
        x: o.x >> k,
        y: o.y >> k,
        z: o.z >> k,
    }
}

// From k levels above an octant down to it: the first ancestor that is a leaf.
fn descend(t: &Octree, o: Octant, k: usize) -> Covered
    requires { (o.level + k ≤ t.now.roots.levels) × In t.now.roots.levels (roots_of t.now.roots) o.level (place_of o) }
    ensures { let d = t.now.roots in result ≡ descent_of (tree_of d t.now.split.now) o k }
{
    let a = ancestor(o, k);
    if !is_split(t, a) {
        return Covered::Leaf(a);
    }
    if k == 0 {
        return Covered::Split;
    }
    descend(t, o, k - 1)
}

// The leaf that covers an octant, by descent from its root.
pub fn covering_leaf(t: &Octree, o: Octant) -> Covered
    requires { o.level ≤ t.now.roots.levels }
    ensures { let d = t.now.roots in result ≡ covered_of d.levels (roots_of d) (tree_of d t.now.split.now) o }
{
    let k = t.roots.levels - o.level;
    if !is_inside(level_at(t.roots, k), o.x, o.y, o.z) {
        return Covered::Outside;
    }
    descend(t, o, k)
}

// Whether an octant is a leaf.
pub fn is_leaf(t: &Octree, o: Octant) -> bool
    requires { o.level ≤ t.now.roots.levels }
    ensures { let d = t.now.roots in result ≡ is_leaf d.levels (roots_of d) (tree_of d t.now.split.now) o.level (place_of o) }
{
    match covering_leaf(t, o) {
        Covered::Leaf(a) => a.level == o.level,
        Covered::Split => false,
        Covered::Outside => false,
    }
}

// Whether an octant can have its corner (i, j, k) at the level's place o: none stands below 0.
fn has_corner(o: Octant, i: usize, j: usize, k: usize) -> bool
    ensures { result ≡ at_most (pos i j k) (place_of o) }
{
    i <= o.x && j <= o.y && k <= o.z
}

// Whether the octant whose corner (i, j, k) stands at the level's place o is a leaf.
fn leaf_at(t: &Octree, o: Octant, i: usize, j: usize, k: usize) -> bool
    requires { o.level ≤ t.now.roots.levels }
    ensures { let d = t.now.roots in result ≡ leaf_at d.levels (roots_of d) (tree_of d t.now.split.now) o.level (place_of o) (pos i j k) }
{
    if !has_corner(o, i, j, k) {
        return false;
    }
    let a = Octant {
        level: o.level,
        x: o.x - i,
        y: o.y - j,
        z: o.z - k,
    };
    is_leaf(t, a)
}

// Whether one of the eight octants around the level's place o is a leaf.
fn leaf_around(t: &Octree, o: Octant) -> bool
    requires { o.level ≤ t.now.roots.levels }
    ensures { let d = t.now.roots in result ≡ leaf_around d.levels (roots_of d) (tree_of d t.now.split.now) o.level (place_of o) }
{
    for n in 0..8 {
        if leaf_at(t, o, n % 2, n / 2 % 2, n / 4) {
            return true;
        }
    }
    false
}

// Whether a vertex stands at a corner of octants w units wide.
fn on_grid(w: usize, x: usize, y: usize, z: usize) -> bool
    requires { 1 ≤ w }
    ensures { result ≡ on_grid w (pos x y z) }
{
    x % w == 0 && y % w == 0 && z % w == 0
}

// Whether a leaf of the level below m puts a vertex at (x, y, z), in vertex coordinates.
pub fn has_finer_vertex(t: &Octree, m: usize, x: usize, y: usize, z: usize) -> bool
    requires { m ≤ t.now.roots.levels }
    ensures { let d = t.now.roots in result ≡ finer d.levels (roots_of d) (tree_of d t.now.split.now) m (pos x y z) }
{
    if m == 0 {
        return false;
    }
    let w = width(m - 1);
    if !on_grid(w, x, y, z) {
        return false;
    }
    let o = Octant {
        level: m - 1,
        x: x / w,
        y: y / w,
        z: z / w,
    };
    leaf_around(t, o)
}
