// The split table of an octree: where its levels and octants stand, and whether an octant is split.
#![tactic(auto)]

ghost use Rattle.std.specs.Prelude.{◌≡◌, ◌+◌, ◌*◌, ◌^◌, ◌≤◌, ◌<◌};
ghost use Rattle.space.specs.Space.{pos};
ghost use Rattle.octants.specs.Oct.{counts, within, hit};
ghost use Rattle.space.specs.Levels.{most_levels, most_roots, most_along, Counts, size};
ghost use Rattle.octree.specs.Parts.{roots_of, place_of, counts_of, tree_of, level_at, below_of, Held, in_level};

pub use table::Octree;

mod table;

// The roots along the axes, and how many levels stand below them.
#[derive(Clone, Copy)]
pub struct Roots {
    pub nx: usize,
    pub ny: usize,
    pub nz: usize,
    pub levels: usize,
}

// An octant: its level, and its place in units of that level.
#[derive(Clone, Copy)]
pub struct Octant {
    pub level: usize,
    pub x: usize,
    pub y: usize,
    pub z: usize,
}

// A level of the table: where it begins, and how many octants stand along each axis.
#[derive(Clone, Copy)]
pub struct Level {
    pub start: usize,
    pub nx: usize,
    pub ny: usize,
    pub nz: usize,
}

// The place of octant (x, y, z) in a level.
pub fn slot_of(v: Level, x: usize, y: usize, z: usize) -> usize
    requires { (v.nx * v.ny < 2 ^ 63) × (x + y * v.nx + z * (v.nx * v.ny) < 2 ^ 63) }
    ensures { result ≡ x + y * v.nx + z * (v.nx * v.ny) }
{
    x + y * v.nx + z * (v.nx * v.ny)
}

// Whether octant (x, y, z) is there.
pub fn is_inside(v: Level, x: usize, y: usize, z: usize) -> bool
    ensures { result ≡ within (counts_of v) (pos x y z) }
{
    x < v.nx && y < v.ny && z < v.nz
}

// Whether octant (x, y, z) of a level is there and split.
pub fn hits(s: &[u8], v: Level, x: usize, y: usize, z: usize) -> bool
    requires { Held s.now v }
    ensures { result ≡ hit (counts_of v) (in_level s.now v) (pos x y z) }
{
    if !is_inside(v, x, y, z) {
        return false;
    }
    let i = v.start + slot_of(v, x, y, z);
    s[i] == 1
}

// How many octants stand along an axis of n roots, k levels down.
pub fn along(n: usize, k: usize) -> usize
    requires { (n ≤ most_roots) × (k ≤ most_levels) }
    ensures { result ≡ n * 2 ^ k }
{
    n << k
}

// The level k levels down from the roots: it begins after the 1 + 8 + 64 + … octants to a root of those above it.
// `Counts` bounds what a caller may ask for, other bounds at other callers: no fact of every `Roots`.
pub fn level_at(d: Roots, k: usize) -> Level
    requires { Counts most_roots (roots_of d) × (k ≤ most_levels) }
    ensures { result ≡ level_at (roots_of d) k }
{
    let w = along(1, k);
    Level {
        start: d.nx * d.ny * d.nz * ((w * w * w - 1) / 7),
        nx: d.nx * w,
        ny: d.ny * w,
        nz: d.nz * w,
    }
}

// The level below a level, which follows it in the table.
pub fn below(v: Level) -> Level
    requires { Counts most_along (counts_of v) × (v.start + size (counts_of v) < 2 ^ 64) }
    ensures { result ≡ below_of v }
{
    Level {
        start: v.start + v.nx * v.ny * v.nz,
        nx: 2 * v.nx,
        ny: 2 * v.ny,
        nz: 2 * v.nz,
    }
}

// Whether an octant is there and split.
pub fn is_split(t: &Octree, o: Octant) -> bool
    requires { o.level ≤ t.now.roots.levels }
    ensures { let d = t.now.roots in result ≡ hit (counts d.levels (roots_of d) o.level) (tree_of d t.now.split.now o.level) (place_of o) }
{
    if o.level == 0 {
        return false;
    }
    let d = t.roots;
    hits(t.split, level_at(d, d.levels - o.level), o.x, o.y, o.z)
}
