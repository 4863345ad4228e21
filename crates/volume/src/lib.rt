// The centroid and the volume of a cell, and the verdict on it. Points are bit patterns, three to a point.
#![tactic(auto)]

ghost use Rattle.std.specs.Prelude.{◌≡◌, ◌<◌};
ghost use Rattle.std.specs.Float.{binary32};
ghost use Rattle.std.specs.Float.Ieee.{to_bits};
ghost use Rattle.mesh.specs.Mesh.{points_of, Points};
ghost use Rattle.volume.specs.Cell.{point_of, corners_of};
ghost use Rattle.volume.specs.Volume.{minus_of, cross_of, dot_of, volume_of, size_of, least_of, verdict_of, volume_in, centre_of, centroid_of};

use float32::to_f32;
use mesh::Cell;

#[derive(Clone, Copy)]
pub struct Point {
    pub x: f32,
    pub y: f32,
    pub z: f32,
}

// The four corners of a cell, in vertex order.
#[derive(Clone, Copy)]
pub struct Corners {
    pub a: Point,
    pub b: Point,
    pub c: Point,
    pub d: Point,
}

// What becomes of a marked cell; each case carries the volume.
#[derive(Clone, Copy)]
pub enum Verdict {
    Kept(f32),
    Exchanged(f32),
    Dropped(f32),
}

// u - v
fn minus(u: Point, v: Point) -> Point
    ensures { result ≡ minus_of u v }
{
    Point {
        x: u.x - v.x,
        y: u.y - v.y,
        z: u.z - v.z,
    }
}

// u × v
fn cross(u: Point, v: Point) -> Point
    ensures { result ≡ cross_of u v }
{
    Point {
        x: u.y * v.z - v.y * u.z,
        y: u.z * v.x - v.z * u.x,
        z: u.x * v.y - v.x * u.y,
    }
}

// u · v, the products summed x, y, z
fn dot(u: Point, v: Point) -> f32
    ensures { result ≡ dot_of u v }
{
    u.x * v.x + u.y * v.y + u.z * v.z
}

// The signed volume of a cell.
fn volume(k: Corners) -> f32
    ensures { result ≡ volume_of k }
{
    dot(cross(minus(k.b, k.a), minus(k.c, k.a)), minus(k.d, k.a)) / 6.0
}

// The size of x. `abs` is another float where x is -0: 0, which `size_of` leaves -0.
fn size(x: f32) -> f32
    ensures { result ≡ size_of x }
{
    if x < 0.0 { -x } else { x }
}

// The least volume of a cell that is kept, for the cell size c.
pub fn least_volume(c: f32) -> f32
    ensures { result ≡ least_of c }
{
    c * c * c * 1.0e-6
}

// The verdict on a cell: only a strictly lesser size than the least volume is dropped, so a NaN stays.
pub fn verdict_on(k: Corners, least: f32) -> Verdict
    ensures { result ≡ verdict_of (volume_of k) least }
{
    let v = volume(k);
    if size(v) < least {
        return Verdict::Dropped(v);
    }
    if v < 0.0 {
        return Verdict::Exchanged(v);
    }
    Verdict::Kept(v)
}

// The volume that a verdict carries.
fn volume_in(verdict: Verdict) -> f32
    ensures { result ≡ volume_in verdict }
{
    match verdict {
        Verdict::Kept(v) | Verdict::Exchanged(v) | Verdict::Dropped(v) => v,
    }
}

// Its bits; those of a NaN are 7FC00000.
pub fn volume_bits(verdict: Verdict) -> u32
    ensures { result ≡ to_bits binary32 (volume_in verdict) }
{
    float32::from_f32(volume_in(verdict))
}

// The point i of the table.
fn point_at(points: &[u32], i: usize) -> Point
    requires { i < points_of points.now }
    ensures { result ≡ point_of points.now i }
{
    let at = 3 * i;
    Point {
        x: to_f32(points[at]),
        y: to_f32(points[at + 1]),
        z: to_f32(points[at + 2]),
    }
}

// The corners of a cell.
pub fn corners_at(points: &[u32], cell: Cell) -> Corners
    requires { Points (points_of points.now) cell }
    ensures { result ≡ corners_of points.now cell }
{
    Corners {
        a: point_at(points, cell.a),
        b: point_at(points, cell.b),
        c: point_at(points, cell.c),
        d: point_at(points, cell.d),
    }
}

// The centroid along one axis: the four added in vertex order from zero, and divided by 4.
fn centre(a: f32, b: f32, c: f32, d: f32) -> f32
    ensures { result ≡ centre_of a b c d }
{
    (0.0 + a + b + c + d) / 4.0
}

pub fn centroid(k: Corners) -> Point
    ensures { result ≡ centroid_of k }
{
    Point {
        x: centre(k.a.x, k.b.x, k.c.x, k.d.x),
        y: centre(k.a.y, k.b.y, k.c.y, k.d.y),
        z: centre(k.a.z, k.b.z, k.c.z, k.d.z),
    }
}
