// Lists the leaves of an octree in the crate's descending order, and counts the cells that they give.
#![tactic(auto)]

ghost use Rattle.std.specs.Prelude.{◌≡◌, true, [], ◌∷◌, ◌+◌, ◌^◌, ◌≤◌, ◌<◌, length};
ghost use Rattle.space.specs.Levels.{most_levels};
ghost use Rattle.octree.specs.Parts.{place_of, tree_of};
ghost use Rattle.vertex_keys.specs.Keys.{Packs};
ghost use Rattle.sides.specs.Parts.{Taken, LeafIn, cells_at, cells_in};
ghost use Rattle.leaves.specs.Parts.{packed, level_in, place_in, leaves_in, leaves_below, cells_below, leaves_of, cells_of, Left, Walked, Counted, nothing};

use octree::{Octant, Octree, Roots, is_split};
use sides::count_leaf;
use vertex_keys::KEYS;

// How many leaves were met, and how many cells they give.
#[derive(Clone, Copy)]
pub struct Tally {
    pub leaves: usize,
    pub cells: usize,
}

// A leaf in one number: its level above the key of its place.
fn pack(o: Octant) -> u64
    requires { (o.level ≤ most_levels) × Packs (place_of o) }
    ensures { result ≡ packed o.level (place_of o) }
{
    let key = vertex_keys::pack(o.x as u64, o.y as u64, o.z as u64);
    o.level as u64 * KEYS + key
}

// The leaf of a number.
pub fn unpack(leaf: u64) -> Octant
    ensures { (result.level ≡ level_in leaf) × (place_of result ≡ place_in leaf) }
{
    let t = vertex_keys::unpack(leaf % KEYS);
    Octant {
        level: (leaf / KEYS) as usize,
        x: t.x as usize,
        y: t.y as usize,
        z: t.z as usize,
    }
}

// Meets a leaf: stores it where there is room; where there is none its cells are counted.
// The table and its roots come apart here and below: of a struct each clause would name both parts.
fn note_leaf(split: &[u8], d: Roots, o: Octant, out: &mut [u64], tally: Tally) -> Tally
    requires taken { Taken split.now d × LeafIn split.now d o }
    requires leaves_bound { tally.leaves + 1 < 2 ^ 64 }
    requires cells_bound { tally.cells + length (cells_at split.now d o) < 2 ^ 64 }
    ensures { Walked out.old tally (packed o.level (place_of o) ∷ []) (cells_at split.now d o) result out.new }
{
    let at = tally.leaves;
    let cells = tally.cells;
    if at < out.len() {
        out[at] = pack(o);
        return Tally {
            leaves: at + 1,
            cells,
        };
    }
    let more = count_leaf(split, d, o);
    Tally {
        leaves: at + 1,
        cells: cells + more,
    }
}

// The walk of an octant: of itself where it is a leaf, and else of its children.
#[cycle(walk_children_walk_octant)]
fn walk_octant(split: &[u8], d: Roots, o: Octant, out: &mut [u64], tally: Tally) -> Tally
    requires taken { Taken split.now d }
    requires left { Left split.now d o (leaves_below split.now d o) (cells_below split.now d o) tally }
    ensures { Walked out.old tally (leaves_below split.now d o) (cells_below split.now d o) result out.new }
{
    let octree = Octree { split, roots: d };
    if is_split(&octree, o) {
        walk_children(split, d, o, 8, out, tally)
    } else {
        note_leaf(split, d, o, out, tally)
    }
}

// The walk over the children `left` - 1 down to 0 of a split octant.
#[cycle(walk_children_walk_octant)]
fn walk_children(
    split: &[u8],
    d: Roots,
    o: Octant,
    left: usize,
    out: &mut [u64],
    tally: Tally,
) -> Tally
    requires taken { Taken split.now d }
    requires left_bound { (left ≤ 8) × (tree_of d split.now o.level (place_of o) ≡ true) }
    requires left { Left split.now d o (leaves_of split.now d o left) (cells_of split.now d o left) tally }
    ensures { Walked out.old tally (leaves_of split.now d o left) (cells_of split.now d o left) result out.new }
{
    if left == 0 {
        tally
    } else {
        let c = left - 1;
        let child = Octant {
            level: o.level - 1,
            x: 2 * o.x + c % 2,
            y: 2 * o.y + c / 2 % 2,
            z: 2 * o.z + c / 4,
        };
        let next = walk_octant(split, d, child, out, tally);
        walk_children(split, d, o, c, out, next)
    }
}

// The walk of all roots, descending by z, then y, then x.
fn walk_roots(split: &[u8], d: Roots, out: &mut [u64]) -> Tally
    requires { Taken split.now d }
    ensures { Walked out.old nothing (leaves_in split.now d) (cells_in split.now d) result out.new }
{
    let nx = d.nx;
    let ny = d.ny;
    let roots = nx * ny * d.nz;
    let mut tally = Tally {
        leaves: 0,
        cells: 0,
    };
    for n in (0..roots).rev() {
        let root = Octant {
            level: d.levels,
            x: n % nx,
            y: n / nx % ny,
            z: n / (nx * ny),
        };
        tally = walk_octant(split, d, root, out, tally);
    }
    tally
}

// The numbers of leaves and of cells, with no table to work in.
pub fn count_cells(split: &[u8], d: Roots) -> Tally
    requires { Taken split.now d }
    ensures { Counted split.now d result }
{
    let mut none = [0u64; 0];
    walk_roots(split, d, &mut none)
}

// The list of leaves, into a table of just as many entries.
pub fn list_leaves(split: &[u8], d: Roots, out: &mut [u64])
    requires { Taken split.now d × (length out.old ≡ length (leaves_in split.now d)) }
    ensures { out.new ≡ leaves_in split.now d }
{
    let _ = walk_roots(split, d, out);
}
