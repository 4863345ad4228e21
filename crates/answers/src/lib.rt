// The crossing answers of octants: those count whose ancestors are all crossed.
#![tactic(auto)]

ghost use Rattle.std.specs.Prelude.{◌≡◌, true, ◌&&◌, ◌+◌, ◌*◌, ◌/◌, ◌≤◌, ◌<◌, eqb, length};
ghost use Rattle.lists.specs.Tests.{bit};
ghost use Rattle.lists.specs.Tables.{all_at_most};
ghost use Rattle.space.specs.Levels.{size};
ghost use Rattle.octants.specs.Table.{raw_of};
ghost use Rattle.octree.specs.Parts.{roots_of, counts_of, Covers, below_of, Stacked};
ghost use Rattle.octree.specs.Sweep.{one, Swept};
ghost use Rattle.answers.specs.Parts.{cleared_byte};

use octree::{Level, Roots, below, level_at, slot_of};

// The byte of an octant that is crossed, where the octant over it counts.
fn cleared(b: u8, over: u8) -> u8
    ensures { result ≡ bit (eqb b 1 && eqb over 1) }
{
    u8::from(b == 1 && over == 1)
}

// Clears what is not under an octant that counts in the row of w octants that begins at i. The octants over them begin at q.
fn clear_row(s: &mut [u8], i: usize, w: usize, q: usize)
    requires { (i + w ≤ length s.old) × (q + (w + 1) / 2 ≤ i) }
    ensures { Swept s.old s.new i w (λ x. bit (one s.old (i + x) && one s.old (q + x / 2))) }
{
    for x in 0..w {
        let j = i + x;
        s[j] = cleared(s[j], s[q + x / 2]);
    }
}

// The same in row r of the level below v.
fn clear_row_at(s: &mut [u8], v: Level, r: usize)
    requires { Stacked s.old v × (r < (below_of v).ny * (below_of v).nz) }
    ensures { Swept s.old s.new ((below_of v).start + r * (below_of v).nx) (below_of v).nx (λ x. cleared_byte s.old v (r * (below_of v).nx + x)) }
{
    let p = below(v);
    let over = v.start + slot_of(v, 0, r % p.ny / 2, r / p.ny / 2);
    clear_row(s, p.start + r * p.nx, p.nx, over);
}

// The same in the whole level below v.
fn clear_level(s: &mut [u8], v: Level)
    requires { Stacked s.old v }
    ensures { Swept s.old s.new (below_of v).start (size (counts_of (below_of v))) (cleared_byte s.old v) }
{
    let p = below(v);
    for r in 0..p.ny * p.nz {
        clear_row_at(s, v, r);
    }
}

// Leaves of the crossing answers those whose ancestors are all crossed, from the roots down.
pub fn clear(s: &mut [u8], d: Roots)
    requires { Covers d (length s.old) × (1 ≤ d.levels) × (all_at_most 1 s.old ≡ true) }
    ensures { s.new ≡ raw_of (roots_of d) d.levels s.old }
{
    for j in 0..d.levels - 1 {
        clear_level(s, level_at(d, j));
    }
}
