// The step grid: from a plan and a split table to cells and vertices.
#![tactic(auto)]

ghost use Rattle.std.specs.Prelude.{◌≡◌, ◌*◌, ◌<◌, ◌≤◌, [], length};
ghost use Rattle.refusals.specs.Rows.{first};
ghost use Rattle.refusals.specs.Refusals.{as_number, number_in};
ghost use Rattle.grid.specs.declared.GridError.TheVariants.{Refused};
ghost use Rattle.plan.specs.declared.Refusal.TheVariants.{Number};
ghost use Rattle.grid.specs.Step.{lacks_cells, lacks_vertices, split_rows, Filled, GridDone};
ghost use Rattle.sides.specs.Parts.{Taken};
ghost use Rattle.space.specs.Levels.{most_octants};
ghost use Rattle.grid.specs.Parts.{key_table, KeysFit, Numberable, Ready, Fillable, Stocked};
ghost use Rattle.plan.specs.Parts.{Planful};
ghost use Rattle.plan.specs.Vertices.{roots_in, triple_at, point_at};
ghost use Rattle.std.proofs.lemmas.List.Edits.{sets};

use octree::{Octree, Roots};
use plan::{Bounds, Plan, Planned};
use refusals::Refusal;
use vertex_keys::Numbering;

// How many cells and vertices there are.
#[derive(Clone, Copy, Debug, PartialEq, Eq)]
pub struct Gridded {
    pub cells: u64,
    pub vertices: u64,
}

// Why `grid` gives none: refused, as a plan is; no room or work for so many cells; no room for the vertices of so many cells.
#[derive(Clone, Copy, Debug, PartialEq, Eq)]
pub enum GridError {
    Refused(plan::Refusal),
    NoCells(u64),
    NoVertices(u64, u64),
}

impl From<Refusal> for GridError {
    ghost from_gives = { λ why r. r ≡ Refused (Number (as_number why)) };

    fn from(why: Refusal) -> GridError {
        GridError::Refused(plan::Refusal::Number(why.number()))
    }
}

// Whether a table of cells or of work is too short for n cells.
#[tactic(auto, unfolding(crate::specs::Step::lacks_cells))]
fn lacks_cells(n: usize, cells: usize, work: usize) -> bool
    requires { n < 4611686018427387904 }
    ensures { result ≡ lacks_cells n cells work }
{
    cells / 4 < n || work < 4 * n
}

// Whether a table of triples or of points is too short for v vertices.
#[tactic(auto, unfolding(crate::specs::Step::lacks_vertices))]
fn lacks_vertices(v: usize, triples: usize, points: usize) -> bool
    ensures { result ≡ lacks_vertices v triples points }
{
    triples / 3 < v || points / 3 < v
}

// What a split table is refused with: 5, 6, 7, or nothing.
fn judge(split: &[u8], p: Plan) -> Result<(), Refusal>
    requires { Planful p }
    ensures { number_in result ≡ first (split_rows p split.now) }
{
    if split.len() != p.octants as usize {
        return Err(Refusal::Length);
    }
    if !lists::all_at_most(split, 1) {
        return Err(Refusal::Byte);
    }
    if p.levels == 0 {
        return Ok(());
    }
    let octree = Octree {
        split,
        roots: p.roots(),
    };
    if !balance::is_graded(&octree) {
        return Err(Refusal::Ungraded);
    }
    Ok(())
}

// The lattice of a plan.
fn lattice_grid(
    p: Plan,
    cells: &mut [u32],
    triples: &mut [u32],
    points: &mut [u32],
    work: &mut [u64],
) -> Result<Gridded, GridError>
    requires { Planful p × (p.levels ≡ 0) }
    ensures { Filled p [] cells.old triples.old points.old work.old result cells.new triples.new points.new work.new }
{
    let n = lattice::count(p.nx as usize, p.ny as usize, p.nz as usize);
    let many = n.cells;
    let vertices = n.vertices;
    if lacks_cells(many, cells.len(), work.len()) {
        return Err(GridError::NoCells(many as u64));
    }
    let need = 4 * many;
    work[..need].fill(0);
    if lacks_vertices(vertices, triples.len(), points.len()) {
        return Err(GridError::NoVertices(many as u64, vertices as u64));
    }
    lattice::store_cells(&mut cells[..need], p.nx, p.ny, p.nz);
    let most = 3 * vertices;
    lattice::store_vertices(&mut triples[..most], &mut points[..most], p);
    Ok(Gridded {
        cells: many as u64,
        vertices: vertices as u64,
    })
}

// The first v keys as triples and as points.
// The place is counted on beside the keys: no second index to the same table.
fn store_vertices(keys: &[u64], v: usize, triples: &mut [u32], points: &mut [u32], p: Plan)
    requires { KeysFit keys.now v triples.old points.old }
    ensures { (triples.new ≡ sets triples.old 0 (key_table triple_at v keys.now)) × (points.new ≡ sets points.old 0 (key_table (point_at p) v keys.now)) }
{
    let mut here: usize = 0;
    for key in &keys[..v] {
        let t = vertex_keys::unpack(*key);
        let x = t.x as u32;
        let y = t.y as u32;
        let z = t.z as u32;
        let px = plan::place(p.ox, p.half, x);
        let py = plan::place(p.oy, p.half, y);
        let pz = plan::place(p.oz, p.half, z);
        lists::store_all(triples, here, [x, y, z]);
        lists::store_all(points, here, [px, py, pz]);
        here += 3;
    }
}

// Numbers the vertices of an octree in the work: the keys of its leaves' points, sorted, one of each, and behind them their index. The
// list of leaves stays behind the room for nine keys a leaf and the size of the index.
fn number_vertices(split: &[u8], d: Roots, many: usize, work: &mut [u64]) -> usize
    requires { Numberable split.now d many work.old }
    ensures { Ready split.now d many work.new result }
{
    let keys = 9 * many;
    let list = keys + 1;
    leaves::list_leaves(split, d, &mut work[list..list + many]);
    leaf_cells::leaf_keys(work, list, many);
    let v = vertex_keys::number(&mut work[..keys]);
    vertex_keys::index(&mut work[..list], v);
    v
}

// The cells and vertices of an octree, with work for its cells and room for just these.
fn octree_fill(
    p: Plan,
    split: &[u8],
    many: usize,
    cells: &mut [u32],
    triples: &mut [u32],
    points: &mut [u32],
    work: &mut [u64],
) -> Result<Gridded, GridError>
    requires { Fillable p split.now many cells.old work.old }
    ensures { Stocked p split.now cells.old triples.old points.old work.old result cells.new triples.new points.new work.new }
{
    let d = p.roots();
    let count = cells.len() / 4;
    let v = number_vertices(split, d, many, work);
    if lacks_vertices(v, triples.len(), points.len()) {
        work.fill(0);
        return Err(GridError::NoVertices(count as u64, v as u64));
    }
    let most = 3 * v;
    store_vertices(work, v, &mut triples[..most], &mut points[..most], p);
    let keys = Numbering {
        entries: work,
        count: v,
    };
    leaf_cells::store_cells(split, d, keys, 9 * many + 1, many, cells);
    work.fill(0);
    Ok(Gridded {
        cells: count as u64,
        vertices: v as u64,
    })
}

// The octree of a plan and a split table.
fn octree_grid(
    p: Plan,
    split: &[u8],
    cells: &mut [u32],
    triples: &mut [u32],
    points: &mut [u32],
    work: &mut [u64],
) -> Result<Gridded, GridError>
    requires { (1 ≤ p.levels) × Taken split.now (roots_in p) × (length split.now ≤ most_octants) }
    ensures { Filled p split.now cells.old triples.old points.old work.old result cells.new triples.new points.new work.new }
{
    let n = leaves::count_cells(split, p.roots());
    let count = n.cells;
    if lacks_cells(count, cells.len(), work.len()) {
        return Err(GridError::NoCells(count as u64));
    }
    let need = 4 * count;
    octree_fill(
        p,
        split,
        n.leaves,
        &mut cells[..need],
        triples,
        points,
        &mut work[..need],
    )
}

// The grid of a box, a cell size, levels and a split table. Refused with 1 to 7, the 4 carrying what the plan's does; with 9 and the cells where `cells` or `work`, four
// entries a cell, is too short, all tables as lent; with 9, the cells and the vertices where `triples` or `points` is too short, and on
// an answer: the work entries are then zero. Entries past the need are never written.
pub fn grid(
    b: Bounds,
    c: f32,
    levels: u32,
    split: &[u8],
    cells: &mut [u32],
    triples: &mut [u32],
    points: &mut [u32],
    work: &mut [u64],
) -> Result<Gridded, GridError>
    ensures { GridDone b c levels split.now cells.old triples.old points.old work.old result cells.new triples.new points.new work.new }
{
    let a = Plan::new(b, c, levels);
    let Planned::Ready(p) = a else {
        return Err(GridError::Refused(a.refusal()));
    };
    judge(split, p)?;
    if levels == 0 {
        return lattice_grid(p, cells, triples, points, work);
    }
    octree_grid(p, split, cells, triples, points, work)
}
