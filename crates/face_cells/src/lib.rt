// Stores the cells of a leaf at its faces, each as four vertex numbers.
#![tactic(auto)]

ghost use Rattle.std.specs.Prelude.{◌≡◌, true, ◌+◌, ◌*◌, ◌^◌, ◌≤◌, ◌<◌, length};
ghost use Rattle.lists.specs.Runs.{Stored, Room};
ghost use Rattle.vertex_keys.specs.Keys.{most_keys};
ghost use Rattle.face_cells.specs.Parts.{rank_in, over_numbers, fan_numbers, halves_numbers, turned_numbers, face_numbers, low_face, high_face, axis_numbers, corners_at, from_next, leaf_numbers, Turns, AllTurn};

use lists::store_all;
use sides::{Beside, Edges, Sides};
use vertex_keys::{Numbering, STRIDE_X, STRIDE_Y};

// A leaf from an axis on, the two others after it: the numbers of its centre and its corners, the key of corner 0, and half its width
// along each axis. A corner's place has 1 for the high end of the first axis, 2 of the second, 4 of the third.
#[derive(Clone, Copy)]
struct Corners {
    centre: u32,
    c0: u32,
    c1: u32,
    c2: u32,
    c3: u32,
    c4: u32,
    c5: u32,
    c6: u32,
    c7: u32,
    k: u64,
    u: u64,
    v: u64,
    w: u64,
}

// A face across the first axis: the numbers of its corners, one after the other around it, the key of p0, and half the leaf's width
// along each axis.
#[derive(Clone, Copy)]
struct Quad {
    p0: u32,
    p1: u32,
    p2: u32,
    p3: u32,
    k: u64,
    u: u64,
    v: u64,
    w: u64,
}

// An edge a, b of a face, with the key m of its midpoint, between p and q.
#[derive(Clone, Copy)]
struct Edge {
    p: u32,
    q: u32,
    a: u32,
    b: u32,
    m: u64,
}

// The cells over an edge: two where a finer vertex stands at its midpoint.
// `Room` is of the table that is written and of what is stored next, here and below: no fact of one value.
fn over(keys: Numbering, out: &mut [u32], at: usize, fine: bool, e: Edge) -> usize
    requires room { Room out.old at (over_numbers (rank_in keys.entries.now keys.count) fine e) }
    ensures { Stored out.old at (over_numbers (rank_in keys.entry.entries.now keys.entry.count) fine e) result out.new }
{
    if fine {
        let n = keys.find(e.m);
        store_all(out, at, [e.p, e.q, e.a, n]);
        store_all(out, at + 4, [e.p, e.q, n, e.b]);
        at + 8
    } else {
        store_all(out, at, [e.p, e.q, e.a, e.b]);
        at + 4
    }
}

// The cells around a face between p and q, by which of its edges have a finer vertex at the midpoint.
fn fan(keys: Numbering, out: &mut [u32], at: usize, p: u32, q: u32, f: Quad, fine: Edges) -> usize
    requires keys_fit { f.k + 2 * f.v + 2 * f.w < 2 ^ 64 }
    requires room { Room out.old at (fan_numbers (rank_in keys.entries.now keys.count) p q f fine) }
    ensures { Stored out.old at (fan_numbers (rank_in keys.entry.entries.now keys.entry.count) p q f fine) result out.new }
{
    let k = f.k;
    let v = f.v;
    let w = f.w;
    let a = Edge {
        p,
        q,
        a: f.p0,
        b: f.p1,
        m: k + v,
    };
    let b = Edge {
        p,
        q,
        a: f.p1,
        b: f.p2,
        m: k + 2 * v + w,
    };
    let c = Edge {
        p,
        q,
        a: f.p2,
        b: f.p3,
        m: k + 2 * w + v,
    };
    let d = Edge {
        p,
        q,
        a: f.p3,
        b: f.p0,
        m: k + w,
    };
    let n = over(keys, out, at, fine.e0, a);
    let m = over(keys, out, n, fine.e1, b);
    let l = over(keys, out, m, fine.e2, c);
    over(keys, out, l, fine.e3, d)
}

// Two half-pyramids.
fn halves(out: &mut [u32], at: usize, c: u32, p: u32, q: u32, r: u32, s: u32) -> usize
    requires { Room out.old at (halves_numbers c p q r s) }
    ensures { Stored out.old at (halves_numbers c p q r s) result out.new }
{
    store_all(out, at, [c, p, q, r]);
    store_all(out, at + 4, [c, p, r, s]);
    at + 8
}

// The same from corner number n of the face on.
// n is how many times the face is turned, a number.
fn turned(out: &mut [u32], at: usize, n: u64, c: u32, p: u32, q: u32, r: u32, s: u32) -> usize
    requires n_bound { n ≤ 3 }
    requires at_in_bounds { at + 8 ≤ length out.old }
    ensures { Stored out.old at (turned_numbers n c p q r s) result out.new }
{
    if n == 0 {
        return halves(out, at, c, p, q, r, s);
    }
    if n == 1 {
        return halves(out, at, c, q, r, s, p);
    }
    if n == 2 {
        return halves(out, at, c, r, s, p, q);
    }
    halves(out, at, c, s, p, q, r)
}

// The cells of a leaf with the centre c at a face, by what stands beside it.
fn face_cells(keys: Numbering, out: &mut [u32], at: usize, side: Beside, c: u32, f: Quad) -> usize
    requires keys_fit { f.k + f.u + 2 * f.v + 2 * f.w < 2 ^ 64 }
    requires turns { Turns side }
    requires room { Room out.old at (face_numbers (rank_in keys.entries.now keys.count) side c f) }
    ensures { Stored out.old at (face_numbers (rank_in keys.entry.entries.now keys.entry.count) side c f) result out.new }
{
    match side {
        Beside::Split => {
            let m = keys.find(f.k + f.v + f.w);
            let all = Edges {
                e0: true,
                e1: true,
                e2: true,
                e3: true,
            };
            fan(keys, out, at, m, c, f, all)
        }
        Beside::Equal(fine) => {
            let o = keys.near(c as usize + 1, f.k + f.u + f.v + f.w);
            fan(keys, out, at, c, o, f, fine)
        }
        Beside::Given => at,
        Beside::Coarser(n) => turned(out, at, n, c, f.p0, f.p1, f.p2, f.p3),
        Beside::Border => halves(out, at, c, f.p0, f.p1, f.p2, f.p3),
    }
}

fn low_face(o: Corners) -> Quad
    ensures { result ≡ low_face o }
{
    Quad {
        p0: o.c0,
        p1: o.c2,
        p2: o.c6,
        p3: o.c4,
        k: o.k,
        u: o.u,
        v: o.v,
        w: o.w,
    }
}

fn high_face(o: Corners) -> Quad
    requires { o.k + 2 * o.u < 2 ^ 64 }
    ensures { result ≡ high_face o }
{
    Quad {
        p0: o.c1,
        p1: o.c3,
        p2: o.c7,
        p3: o.c5,
        k: o.k + 2 * o.u,
        u: o.u,
        v: o.v,
        w: o.w,
    }
}

// The cells at both faces across the first axis of a leaf.
fn axis_cells(
    keys: Numbering,
    out: &mut [u32],
    at: usize,
    low: Beside,
    high: Beside,
    o: Corners,
) -> usize
    requires keys_fit { o.k + 3 * o.u + 2 * o.v + 2 * o.w < 2 ^ 64 }
    requires turns { Turns low × Turns high }
    requires room { Room out.old at (axis_numbers (rank_in keys.entries.now keys.count) low high o) }
    ensures { Stored out.old at (axis_numbers (rank_in keys.entry.entries.now keys.entry.count) low high o) result out.new }
{
    let n = face_cells(keys, out, at, low, o.centre, low_face(o));
    face_cells(keys, out, n, high, o.centre, high_face(o))
}

// Finds the leaf whose low corner has the key k. A corner mostly stands next to the one below it along the third axis.
fn corners_at(keys: Numbering, k: u64, u: u64, v: u64, w: u64) -> Corners
    requires keys_fit { k + 2 * u + 2 * v + 2 * w < 2 ^ 64 }
    ensures { result ≡ corners_at (rank_in keys.entry.entries.now keys.entry.count) k u v w }
{
    let x = k + 2 * u;
    let y = 2 * v;
    let z = 2 * w;
    let centre = keys.find(k + u + v + w);
    let c0 = keys.find(k);
    let c1 = keys.find(x);
    let c2 = keys.find(k + y);
    let c3 = keys.find(x + y);
    let c4 = keys.near(c0 as usize + 1, k + z);
    let c5 = keys.near(c1 as usize + 1, x + z);
    let c6 = keys.near(c2 as usize + 1, k + y + z);
    let c7 = keys.near(c3 as usize + 1, x + y + z);
    Corners {
        centre,
        c0,
        c1,
        c2,
        c3,
        c4,
        c5,
        c6,
        c7,
        k,
        u,
        v,
        w,
    }
}

// The same leaf, from the next axis on.
fn from_next(o: Corners) -> Corners
    ensures { result ≡ from_next o }
{
    Corners {
        centre: o.centre,
        c0: o.c0,
        c1: o.c2,
        c2: o.c4,
        c3: o.c6,
        c4: o.c1,
        c5: o.c3,
        c6: o.c5,
        c7: o.c7,
        k: o.k,
        u: o.v,
        v: o.w,
        w: o.u,
    }
}

// The cells of a leaf with these sides: k is the key of its low corner, h half its width.
pub fn six_faces(keys: Numbering, out: &mut [u32], at: usize, f: Sides, k: u64, h: u64) -> usize
    requires leaf_small { (k < most_keys) × (h ≤ 32) }
    requires all_turn { AllTurn f }
    requires room { Room out.old at (leaf_numbers (rank_in keys.entries.now keys.count) f k h) }
    ensures { Stored out.old at (leaf_numbers (rank_in keys.entry.entries.now keys.entry.count) f k h) result out.new }
{
    let x = corners_at(keys, k, h * STRIDE_X, h * STRIDE_Y, h);
    let y = from_next(x);
    let z = from_next(y);
    let x0 = f.x0;
    let x1 = f.x1;
    let y0 = f.y0;
    let y1 = f.y1;
    let z0 = f.z0;
    let z1 = f.z1;
    let n = axis_cells(keys, out, at, x0, x1, x);
    let m = axis_cells(keys, out, n, y0, y1, y);
    axis_cells(keys, out, m, z0, z1, z)
}
