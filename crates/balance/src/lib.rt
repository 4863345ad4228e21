// The balance by the shell: an octant is split where a split octant of the level below touches it.
#![tactic(auto)]

ghost use Rattle.std.specs.Prelude.{◌≡◌, true, not, ◌||◌, ◌&&◌, ◌+◌, ◌*◌, ◌-◌, ◌^◌, ◌≤◌, ◌<◌, eqb, length};
ghost use Rattle.lists.specs.Tests.{any, bit};
ghost use Rattle.lists.specs.Tables.{all_at_most};
ghost use Rattle.space.specs.Levels.{size};
ghost use Rattle.octants.specs.Table.{balance_of};
ghost use Rattle.octants.specs.Judge.{is_graded};
ghost use Rattle.octree.specs.Parts.{roots_of, counts_of, Covers, below_of, Stacked};
ghost use Rattle.octree.specs.Sweep.{one, Swept};
ghost use Rattle.balance.specs.Parts.{Merged, in_rows, LayersAsked, in_layers, Ends, Blank, touched_of, Seen, LevelAsked, balanced_byte, gives};

use octree::{Level, Octree, Roots, below, level_at};

// A marked entry stays so, and another is marked where b is 1.
fn mark(a: u8, b: u8) -> u8
    ensures { eqb result 1 ≡ (eqb a 1 || eqb b 1) }
{
    if b == 1 { 1 } else { a }
}

// Marks the split octants of the row of w octants that begins at o.
fn merge_row(seen: &mut [u8], s: &[u8], o: usize, w: usize)
    requires { (w + 2 ≤ length seen.old) × (o + w ≤ length s.now) }
    ensures { Merged seen.old seen.new w (λ x. one s.now (o + x)) }
{
    for x in 0..w {
        let j = x + 1;
        let i = o + x;
        seen[j] = mark(seen[j], s[i]);
    }
}

// Marks the split octants of the rows y0 up to y1 of the layer that begins at o.
fn merge_rows(seen: &mut [u8], s: &[u8], o: usize, w: usize, y0: usize, y1: usize)
    requires { (w + 2 ≤ length seen.old) × (y0 ≤ y1) × (o + y1 * w ≤ length s.now) }
    ensures { Merged seen.old seen.new w (in_rows s.now o w y0 y1) }
{
    for y in y0..y1 {
        merge_row(seen, s, o + y * w, w);
    }
}

// Marks the split octants of these rows of the layers z0 up to z1 of a level.
fn merge_layers(seen: &mut [u8], s: &[u8], v: Level, y0: usize, y1: usize, z0: usize, z1: usize)
    requires { LayersAsked seen.old s.now v y0 y1 z0 z1 }
    ensures { Merged seen.old seen.new v.nx (in_layers s.now v y0 y1 z0 z1) }
{
    let o = v.start;
    let w = v.nx;
    let h = v.ny;
    for z in z0..z1 {
        merge_rows(seen, s, o + z * (w * h), w, y0, y1);
    }
}

// The first octant of the level below that touches octant y.
fn first_near(y: usize) -> usize
    requires { y < 2 ^ 32 }
    ensures { result ≡ 2 * y - 1 }
{
    (2 * y).saturating_sub(1)
}

// One past the last octant of the level below that touches octant y, of n.
fn end_near(y: usize, n: usize) -> usize
    requires { (y < n) × (n < 2 ^ 32) }
    ensures { Ends y n result }
{
    if y + 1 == n { 2 * n } else { 2 * y + 3 }
}

// Marks the shell of row (y, z) of a level: what the level below has beside it.
// `Stacked` is of the table that `balance` writes and of one of its levels: no fact of one value.
fn shell(seen: &mut [u8], s: &[u8], v: Level, y: usize, z: usize)
    requires { Blank seen.old (2 * v.nx) × Stacked s.now v × (y < v.ny) × (z < v.nz) }
    ensures { Seen seen.new s.now (below_of v) v.nx y z }
{
    let p = below(v);
    merge_layers(
        seen,
        s,
        p,
        first_near(y),
        end_near(y, v.ny),
        first_near(z),
        end_near(z, v.nz),
    );
}

// Whether one of the four octants of the level below that touch octant x along the row is marked.
#[tactic(auto, unfolding(lists::specs::Tests::any))]
fn touched(seen: &[u8], x: usize) -> bool
    requires { 2 * x + 3 < length seen.now }
    ensures { result ≡ touched_of seen.now x }
{
    let i = 2 * x;
    seen[i] == 1 || seen[i + 1] == 1 || seen[i + 2] == 1 || seen[i + 3] == 1
}

// The byte of an octant that is split already, or touched by a split octant of the level below.
fn split_byte(b: u8, t: bool) -> u8
    ensures { result ≡ bit (eqb b 1 || t) }
{
    u8::from(b == 1 || t)
}

// Splits the touched octants of the row of n octants that begins at i.
fn split_row(s: &mut [u8], i: usize, n: usize, seen: &[u8])
    requires { (i + n ≤ length s.old) × (2 * n + 2 ≤ length seen.now) }
    ensures { Swept s.old s.new i n (λ x. bit (one s.old (i + x) || touched_of seen.now x)) }
{
    for x in 0..n {
        let j = i + x;
        s[j] = split_byte(s[j], touched(seen, x));
    }
}

// Balances row q of a level, by the level below.
// `LevelAsked` is of the table that is written, row after row: no fact of one value.
fn balance_row(s: &mut [u8], v: Level, q: usize)
    requires { LevelAsked s.old v × (q < v.ny * v.nz) }
    ensures { Swept s.old s.new (v.start + q * v.nx) v.nx (λ x. balanced_byte s.old v (q * v.nx + x)) }
{
    let mut seen = [0u8; 1026];
    shell(&mut seen, s, v, q % v.ny, q / v.ny);
    split_row(s, v.start + q * v.nx, v.nx, &seen);
}

// Balances a level, by the level below.
fn balance_level(s: &mut [u8], v: Level)
    requires { LevelAsked s.old v }
    ensures { Swept s.old s.new v.start (size (counts_of v)) (balanced_byte s.old v) }
{
    for q in 0..v.ny * v.nz {
        balance_row(s, v, q);
    }
}

// Splits what the grading asks for, from level 2 up to the roots.
pub fn balance(s: &mut [u8], d: Roots)
    requires { Covers d (length s.old) × (1 ≤ d.levels) × (all_at_most 1 s.old ≡ true) }
    ensures { s.new ≡ balance_of (roots_of d) d.levels s.old }
{
    for j in (0..d.levels - 1).rev() {
        balance_level(s, level_at(d, j));
    }
}

// Whether an octant is touched by a split octant of the level below, and not split.
fn is_unsteady(b: u8, t: bool) -> bool
    ensures { result ≡ (not (eqb b 1) && t) }
{
    b != 1 && t
}

// Whether the row of n octants that begins at i has one that is touched and not split.
fn row_gives(s: &[u8], i: usize, n: usize, seen: &[u8]) -> bool
    requires { (i + n ≤ length s.now) × (2 * n + 2 ≤ length seen.now) }
    ensures { result ≡ any n (λ x. not (one s.now (i + x)) && touched_of seen.now x) }
{
    for x in 0..n {
        let j = i + x;
        if is_unsteady(s[j], touched(seen, x)) {
            return true;
        }
    }
    false
}

// Whether row q of a level has an octant that the balance would split.
fn row_unsteady(s: &[u8], v: Level, q: usize) -> bool
    requires { LevelAsked s.now v × (q < v.ny * v.nz) }
    ensures { result ≡ any v.nx (λ x. gives s.now v (q * v.nx + x)) }
{
    let mut seen = [0u8; 1026];
    shell(&mut seen, s, v, q % v.ny, q / v.ny);
    row_gives(s, v.start + q * v.nx, v.nx, &seen)
}

// Whether a level has an octant that the balance would split.
fn level_unsteady(s: &[u8], v: Level) -> bool
    requires { LevelAsked s.now v }
    ensures { result ≡ any (size (counts_of v)) (gives s.now v) }
{
    for q in 0..v.ny * v.nz {
        if row_unsteady(s, v, q) {
            return true;
        }
    }
    false
}

// Whether a split table is an octree, and graded: that no octant is left that the balance would split.
pub fn is_graded(t: &Octree) -> bool
    requires { 1 ≤ t.now.roots.levels }
    ensures { let d = t.now.roots in result ≡ is_graded (roots_of d) d.levels t.now.split.now }
{
    let s = t.split;
    let d = t.roots;
    for j in 0..d.levels - 1 {
        if level_unsteady(s, level_at(d, j)) {
            return false;
        }
    }
    true
}
