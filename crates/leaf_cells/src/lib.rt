// From the list of leaves: the keys of their vertices, and the cells that they give.
#![tactic(auto)]

ghost use Rattle.std.specs.Prelude.{◌≡◌, ◌+◌, ◌*◌, ◌^◌, ◌≤◌, ◌<◌, length};
ghost use Rattle.std.proofs.lemmas.List.Edits.{sets};
ghost use Rattle.lists.specs.Runs.{Stored, Room};
ghost use Rattle.octree_cells.specs.Cells.{flat};
ghost use Rattle.vertex_keys.specs.Keys.{most_keys};
ghost use Rattle.sides.specs.Parts.{Taken, cells_in};
ghost use Rattle.leaves.specs.Parts.{level_in};
ghost use Rattle.leaf_cells.specs.Parts.{Placed, AllPlaced, ListedIn, cells_of, low_in, nine_keys, keys_in, keys_from, number_in, Standing};

use face_cells::six_faces;
use leaves::unpack;
use octree::{Roots, along};
use sides::sides_at;
use vertex_keys::{KEYS, Numbering, STRIDE_X, STRIDE_Y};

// The keys of a leaf's centre and corners, from the high corner down: k is the key of the low one, u, v and w half the leaf's
// width along x, y and z.
fn store_nine(work: &mut [u64], at: usize, k: u64, u: u64, v: u64, w: u64)
    requires at_in_bounds { at + 9 ≤ length work.old }
    requires w_bound { k + 2 * u + 2 * v + 2 * w < 2 ^ 64 }
    ensures { work.new ≡ sets work.old at (nine_keys k u v w) }
{
    let y = k + 2 * v;
    let z = k + 2 * w;
    let s = y + 2 * w;
    let centre = k + u + v + w;
    let keys = [
        centre,
        s + 2 * u,
        s,
        z + 2 * u,
        z,
        y + 2 * u,
        y,
        k + 2 * u,
        k,
    ];
    work[at..at + 9].copy_from_slice(&keys);
}

// Half the width of a listed leaf.
// A leaf is the number that stands in the lent table, so `Placed` is said of it here and below, and of all of them by `AllPlaced`.
fn half_of(leaf: u64) -> u64
    requires { Placed leaf }
    ensures { (result ≡ 2 ^ level_in leaf) × (result ≤ 32) }
{
    along(1, (leaf / KEYS) as usize) as u64
}

// The key of its low corner: a coordinate is so many widths.
fn low_of(leaf: u64, h: u64) -> u64
    requires { Placed leaf × (h ≡ 2 ^ level_in leaf) }
    ensures { (result ≡ low_in leaf) × (result < most_keys) }
{
    leaf % KEYS * (2 * h)
}

// The nine keys of a listed leaf.
fn store_keys(work: &mut [u64], at: usize, leaf: u64)
    requires { (at + 9 ≤ length work.old) × Placed leaf }
    ensures { work.new ≡ sets work.old at (keys_in leaf) }
{
    let h = half_of(leaf);
    let k = low_of(leaf, h);
    store_nine(work, at, k, h * STRIDE_X, h * STRIDE_Y, h);
}

// The keys of all leaves, nine a leaf, into the front of the work; the list of leaves stands behind them, from `list` on.
pub fn leaf_keys(work: &mut [u64], list: usize, leaves: usize)
    requires leaves_in_bounds { (list + leaves ≤ length work.old) × (9 * leaves ≤ list) }
    requires all_placed { AllPlaced work.old list leaves }
    ensures { work.new ≡ sets work.old 0 (keys_from work.old list leaves) }
{
    for n in 0..leaves {
        let leaf = work[list + n];
        store_keys(work, 9 * n, leaf);
    }
}

// The cells of a listed leaf, each vertex by its number.
fn leaf_cells(
    split: &[u8],
    d: Roots,
    keys: Numbering,
    leaf: u64,
    out: &mut [u32],
    at: usize,
) -> usize
    requires taken { Taken split.now d × ListedIn split.now d leaf }
    requires room { Room out.old at (flat (number_in keys.entries.now keys.count) (cells_of split.now d leaf)) }
    ensures { Stored out.old at (flat (number_in keys.entry.entries.now keys.entry.count) (cells_of split.now d leaf)) result out.new }
{
    let f = sides_at(split, d, unpack(leaf));
    let h = half_of(leaf);
    six_faces(keys, out, at, f, low_of(leaf, h), h)
}

// The cells of all leaves, in the order of the list, which stands behind the keys from `list` on.
pub fn store_cells(
    split: &[u8],
    d: Roots,
    keys: Numbering,
    list: usize,
    leaves: usize,
    out: &mut [u32],
)
    requires taken { Taken split.now d × Standing split.now d keys.entries.now list leaves }
    requires out_len { length out.old ≡ 4 * length (cells_in split.now d) }
    ensures { out.new ≡ flat (number_in keys.entry.entries.now keys.entry.count) (cells_in split.now d) }
{
    let mut at: usize = 0;
    for leaf in &keys.entries[list..list + leaves] {
        at = leaf_cells(split, d, keys, *leaf, out, at);
    }
}
