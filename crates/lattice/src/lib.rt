// The lattice: how many cells and vertices it has, and their storing, by numbers in closed form.
#![tactic(auto)]

ghost use Rattle.std.specs.Prelude.{◌≡◌, ◌&&◌, ◌+◌, ◌*◌, ◌<◌, ◌≤◌};
ghost use Rattle.lists.specs.Runs.{Stored, Room};
ghost use Rattle.std.proofs.lemmas.List.Edits.{sets};
ghost use Rattle.space.specs.Space.{pos};
ghost use Rattle.lattice.specs.Lattice.{lattice_table};
ghost use Rattle.plan.specs.Vertices.{triple_at, point_at};
ghost use Rattle.lattice.specs.Parts.{Dims, Counted, octa_numbers, OctaFits, row_numbers, RowFits, InRow, IsRow, InLayer, layer_cells, all_cells, BothRoom, BothStored, row_of, layer_of, box_of, vertices_of};

use plan::Plan;

#[derive(Clone, Copy)]
pub struct Counts {
    pub cells: usize,
    pub vertices: usize,
}

fn times(a: usize, b: usize, c: usize) -> usize
    requires { (a ≤ 65) × (b ≤ 65) × (c ≤ 65) }
    ensures { (result ≡ a * b * c) × (result ≤ 274625) }
{
    a * b * c
}

// How many cells and vertices a lattice of these dimensions has.
// `Dims` is what a plan of no levels keeps, and three functions ask it of three numbers: a struct of them would be made of the plan at each.
pub fn count(nx: usize, ny: usize, nz: usize) -> Counts
    requires { Dims nx ny nz }
    ensures { Counted (pos nx ny nz) result }
{
    let hx = nx / 2;
    let hy = ny / 2;
    let hz = nz / 2;
    let ox = (nx + 1) / 2;
    let oy = (ny + 1) / 2;
    let oz = (nz + 1) / 2;
    let octahedra = times(ox - 1, hy, hz) + times(hx, oy - 1, hz) + times(hx, hy, oz - 1);
    let corners = times(hx + 1, hy + 1, hz + 1);
    let centres = times(ox, oy, oz);
    Counts {
        cells: 4 * octahedra,
        vertices: corners + centres,
    }
}

// An octahedron by numbers: its centre, the opposite one, its low corner, and what a step along the two axes of the face adds to a
// corner's number.
#[derive(Clone, Copy)]
struct Octa {
    centre: u32,
    opposite: u32,
    low: u32,
    u: u32,
    v: u32,
}

// The four cells of an octahedron, where its row and its place have one.
fn octahedron(cells: &mut [u32], at: usize, row: bool, here: bool, o: Octa) -> usize
    requires { OctaFits cells.old at (row && here) o }
    ensures { Stored cells.old at (octa_numbers (row && here) o) result cells.new }
{
    if !row {
        return at;
    }
    if !here {
        return at;
    }
    let centre = o.centre;
    let opposite = o.opposite;
    let low = o.low;
    let c1 = low + o.v;
    let c3 = low + o.u;
    let c0 = c3 + o.v;
    lists::store_all(cells, at, [centre, opposite, c0, c1]);
    lists::store_all(cells, at + 4, [centre, opposite, c1, low]);
    lists::store_all(cells, at + 8, [centre, opposite, low, c3]);
    lists::store_all(cells, at + 12, [centre, opposite, c3, c0]);
    at + 16
}

// A row of n centres, with h low corners that have one further on along x; whether it has octahedra along x, y and z; the numbers of
// its first centre and of its first low corner; what a step along y and along z adds to a corner's number, and one along z to a centre's.
#[derive(Clone, Copy)]
struct Row {
    n: u32,
    h: u32,
    tx: bool,
    ty: bool,
    tz: bool,
    centre: u32,
    low: u32,
    line: u32,
    layer: u32,
    deep: u32,
}

// The cells of a row.
fn store_row(cells: &mut [u32], at: usize, r: Row) -> usize
    requires { RowFits cells.old at r }
    ensures { Stored cells.old at (row_numbers r) result cells.new }
{
    let n = r.n;
    let h = r.h;
    let tx = r.tx;
    let ty = r.ty;
    let tz = r.tz;
    let centre = r.centre;
    let low = r.low;
    let line = r.line;
    let layer = r.layer;
    let deep = r.deep;
    let mut here = at;
    for i in 0..n {
        let c = centre + i;
        let b = low + i;
        let x = Octa {
            centre: c,
            opposite: c + 1,
            low: b + 1,
            u: line,
            v: layer,
        };
        let y = Octa {
            centre: c,
            opposite: c + n,
            low: b + line,
            u: layer,
            v: 1,
        };
        let z = Octa {
            centre: c,
            opposite: c + deep,
            low: b + layer,
            u: 1,
            v: line,
        };
        here = octahedron(cells, here, tx, i + 1 < n, x);
        here = octahedron(cells, here, ty, i < h, y);
        here = octahedron(cells, here, tz, i < h, z);
    }
    here
}

// The place of (0, j, k) in a box of m along x and n along y.
fn slot(j: u32, k: u32, n: u32, m: u32) -> u32
    requires { (j ≤ 65) × (k ≤ 65) × (n ≤ 65) × (m ≤ 65) }
    ensures { (result ≡ (j + k * n) * m) × (result ≤ 278850) }
{
    (j + k * n) * m
}

// Row j of layer k.
fn row_of(nx: u32, ny: u32, nz: u32, j: u32, k: u32) -> Row
    requires { InRow nx ny nz k j }
    ensures { IsRow nx ny nz k j result }
{
    let hx = nx / 2;
    let hy = ny / 2;
    let hz = nz / 2;
    let ox = (nx + 1) / 2;
    let oy = (ny + 1) / 2;
    let oz = (nz + 1) / 2;
    let line = hx + 1;
    let tx = j < hy && k < hz;
    let ty = j + 1 < oy && k < hz;
    let tz = k + 1 < oz && j < hy;
    let first = slot(0, hz + 1, hy + 1, line);
    Row {
        n: ox,
        h: hx,
        tx,
        ty,
        tz,
        centre: first + slot(j, k, oy, ox),
        low: slot(j, k, hy + 1, line),
        line,
        layer: slot(hy + 1, 0, 0, line),
        deep: slot(oy, 0, 0, ox),
    }
}

// The cells of layer k.
fn layer_at(cells: &mut [u32], at: usize, nx: u32, ny: u32, nz: u32, k: u32) -> usize
    requires { InLayer nx ny nz k × Room cells.old at (layer_cells (pos nx ny nz) k) }
    ensures { Stored cells.old at (layer_cells (pos nx ny nz) k) result cells.new }
{
    let n = (ny + 1) / 2;
    let mut here = at;
    for j in 0..n {
        here = store_row(cells, here, row_of(nx, ny, nz, j, k));
    }
    here
}

// All cells of the lattice, in a table that holds just these.
pub fn store_cells(cells: &mut [u32], nx: u32, ny: u32, nz: u32)
    requires { Dims nx ny nz × Room cells.old 0 (all_cells (pos nx ny nz)) }
    ensures { cells.new ≡ sets cells.old 0 (lattice_table (pos nx ny nz)) }
{
    let n = (nz + 1) / 2;
    let mut here: usize = 0;
    for k in 0..n {
        here = layer_at(cells, here, nx, ny, nz, k);
    }
}

// The vertices of row j of layer k, n along x: e is 0 for the even ones and 1 for the odd ones.
// `BothRoom` is of two tables that are written and of what is stored next, here and below: no fact of one value. The two, the place in them and
// the plan come apart: a struct that lends the tables on would be made anew for each row. The place is handed on, so it is counted.
fn vertex_row(
    triples: &mut [u32],
    points: &mut [u32],
    at: usize,
    p: Plan,
    n: u32,
    e: u32,
    j: u32,
    k: u32,
) -> usize
    requires { (n ≤ 65) × (e ≤ 1) × (j < 65) × (k < 65) × BothRoom triples.old points.old at (row_of triple_at e n k j) (row_of (point_at p) e n k j) }
    ensures { BothStored triples.old points.old at (row_of triple_at e n k j) (row_of (point_at p) e n k j) result triples.new points.new }
{
    let y = 2 * j + e;
    let z = 2 * k + e;
    let py = plan::place(p.oy, p.half, y);
    let pz = plan::place(p.oz, p.half, z);
    let mut here = at;
    for i in 0..n {
        let x = 2 * i + e;
        let px = plan::place(p.ox, p.half, x);
        lists::store_all(triples, here, [x, y, z]);
        lists::store_all(points, here, [px, py, pz]);
        here += 3;
    }
    here
}

// The vertices of layer k, of m rows.
fn vertex_layer(
    triples: &mut [u32],
    points: &mut [u32],
    at: usize,
    p: Plan,
    n: u32,
    m: u32,
    e: u32,
    k: u32,
) -> usize
    requires { (n ≤ 65) × (m ≤ 65) × (e ≤ 1) × (k < 65) × BothRoom triples.old points.old at (layer_of triple_at e n m k) (layer_of (point_at p) e n m k) }
    ensures { BothStored triples.old points.old at (layer_of triple_at e n m k) (layer_of (point_at p) e n m k) result triples.new points.new }
{
    let mut here = at;
    for j in 0..m {
        here = vertex_row(triples, points, here, p, n, e, j, k);
    }
    here
}

// The vertices of a box of n, m and l along the axes: the even ones or the odd ones.
fn vertex_box(
    triples: &mut [u32],
    points: &mut [u32],
    at: usize,
    p: Plan,
    n: u32,
    m: u32,
    l: u32,
    e: u32,
) -> usize
    requires { (n ≤ 65) × (m ≤ 65) × (l ≤ 65) × (e ≤ 1) × BothRoom triples.old points.old at (box_of triple_at e n m l) (box_of (point_at p) e n m l) }
    ensures { BothStored triples.old points.old at (box_of triple_at e n m l) (box_of (point_at p) e n m l) result triples.new points.new }
{
    let mut here = at;
    for k in 0..l {
        here = vertex_layer(triples, points, here, p, n, m, e, k);
    }
    here
}

// All vertices of the lattice, even ones first, in tables with room for them.
pub fn store_vertices(triples: &mut [u32], points: &mut [u32], p: Plan)
    requires { Dims p.nx p.ny p.nz × BothRoom triples.old points.old 0 (vertices_of triple_at p) (vertices_of (point_at p) p) }
    ensures { (triples.new ≡ sets triples.old 0 (vertices_of triple_at p)) × (points.new ≡ sets points.old 0 (vertices_of (point_at p) p)) }
{
    let nx = p.nx;
    let ny = p.ny;
    let nz = p.nz;
    let here = vertex_box(triples, points, 0, p, nx / 2 + 1, ny / 2 + 1, nz / 2 + 1, 0);
    vertex_box(
        triples,
        points,
        here,
        p,
        (nx + 1) / 2,
        (ny + 1) / 2,
        (nz + 1) / 2,
        1,
    );
}
