// The layout of the viewer's file: legacy VTK, version 3.0, BINARY, UNSTRUCTURED_GRID. Read from the front, on any bytes.
#![tactic(auto)]

ghost use Rattle.std.specs.Prelude.{◌≡◌, ◌++◌, ◌+◌, ◌*◌, ◌≤◌, ◌<◌, length};
ghost use Rattle.lists.specs.Runs.{Stored};
ghost use Rattle.decimal.specs.Digits.{digits};
ghost use Rattle.vtk_layout.specs.Layout.{title_at, block_at, counted_at, head_of, section_at, line_at, end_at, numbers_on, types_on, cells_on, points_on, located_of};

use decimal::Counted;
use refusals::Refusal;

// The texts of the header, in their order; the title line of a file is any text, and TITLE_LINE is ours.
pub const VERSION_LINE: [u8; 27] = *b"# vtk DataFile Version 3.0\n";

pub const TITLE_LINE: [u8; 11] = *b"cover mesh\n";

pub const DATASET_LINES: [u8; 40] = *b"BINARY\nDATASET UNSTRUCTURED_GRID\nPOINTS ";

pub const FLOAT_LINE: [u8; 7] = *b" float\n";

pub const CELLS_WORD: [u8; 7] = *b"\nCELLS ";

pub const SPACE: [u8; 1] = *b" ";

pub const TYPES_WORD: [u8; 12] = *b"\nCELL_TYPES ";

pub const DATA_WORD: [u8; 11] = *b"\nCELL_DATA ";

pub const SCALAR_LINES: [u8; 46] = *b"\nSCALARS component int 1\nLOOKUP_TABLE default\n";

pub const FEED: [u8; 1] = *b"\n";

// A file's p points and n cells, and the places of its blocks: points, cells, cell types, component numbers.
#[derive(Clone, Copy, Debug, PartialEq, Eq)]
pub struct Layout {
    pub p: usize,
    pub n: usize,
    pub points: usize,
    pub cells: usize,
    pub types: usize,
    pub numbers: usize,
}

// Passes over a title of at most 255 bytes and its line feed.
// q is counted on with the bytes that are there, since at + 255 may not fit.
fn title(file: &[u8], at: usize) -> Result<usize, Refusal>
    ensures { result ≡ title_at 255 file.now at }
{
    let mut q = at;
    for _ in 0..255usize {
        if file.len() <= q {
            return Err(Refusal::Cut);
        }
        if file[q] == b'\n' {
            return Ok(q + 1);
        }
        q += 1;
    }
    decimal::text(file, q, &FEED)
}

// A block of so many bytes that is there: where it starts.
fn block(file: &[u8], at: usize, size: usize) -> Result<usize, Refusal>
    ensures { result ≡ block_at size file.now at }
{
    if file.len() < size {
        return Err(Refusal::Cut);
    }
    if file.len() - size < at {
        return Err(Refusal::Cut);
    }
    Ok(at)
}

// A text, and the count behind it.
fn counted(file: &[u8], at: usize, before: &[u8]) -> Result<Counted, Refusal>
    ensures { result ≡ counted_at before.now file.now at }
{
    let next = decimal::text(file, at, before)?;
    decimal::count(file, next)
}

// The first lines, up to the number of points.
fn head(file: &[u8]) -> Result<Counted, Refusal>
    ensures { result ≡ head_of file.now }
{
    let first = decimal::text(file, 0, &VERSION_LINE)?;
    let second = title(file, first)?;
    counted(file, second, &DATASET_LINES)
}

// A text, and the block behind it: where it starts.
fn line(file: &[u8], at: usize, text: &[u8], size: usize) -> Result<usize, Refusal>
    ensures { result ≡ line_at text.now size file.now at }
{
    let next = decimal::text(file, at, text)?;
    block(file, next, size)
}

// Header lines with a number in them, and the block behind them: where it starts.
fn section(
    file: &[u8],
    at: usize,
    before: &[u8],
    n: usize,
    after: &[u8],
    size: usize,
) -> Result<usize, Refusal>
    ensures { result ≡ section_at before.now n after.now size file.now at }
{
    let first = decimal::text(file, at, before)?;
    let second = decimal::number(file, first, n)?;
    line(file, second, after, size)
}

// The last line feed, behind which the file ends.
fn end(file: &[u8], at: usize) -> Result<usize, Refusal>
    ensures { result ≡ end_at file.now at }
{
    let next = decimal::text(file, at, &FEED)?;
    if next < file.len() {
        return Err(Refusal::Trailing);
    }
    Ok(next)
}

// From the header of the component numbers on.
fn numbers_on(
    file: &[u8],
    p: usize,
    n: usize,
    points: usize,
    cells: usize,
    types: usize,
) -> Result<Layout, Refusal>
    requires { (n < 10000000000) × (types + 4 * n ≤ length file.now) }
    ensures { result ≡ numbers_on file.now p n points cells types }
{
    let numbers = section(file, types + 4 * n, &DATA_WORD, n, &SCALAR_LINES, 4 * n)?;
    end(file, numbers + 4 * n)?;
    Ok(Layout {
        p,
        n,
        points,
        cells,
        types,
        numbers,
    })
}

// From the header of the cell types on.
fn types_on(file: &[u8], p: usize, n: usize, points: usize, cells: usize) -> Result<Layout, Refusal>
    requires { (n < 10000000000) × (cells + 20 * n ≤ length file.now) }
    ensures { result ≡ types_on file.now p n points cells }
{
    let types = section(file, cells + 20 * n, &TYPES_WORD, n, &FEED, 4 * n)?;
    numbers_on(file, p, n, points, cells, types)
}

// From what follows the number of cells on.
fn cells_on(file: &[u8], p: usize, n: usize, points: usize, at: usize) -> Result<Layout, Refusal>
    requires { n < 10000000000 }
    ensures { result ≡ cells_on file.now p n points at }
{
    let cells = section(file, at, &SPACE, 5 * n, &FEED, 20 * n)?;
    types_on(file, p, n, points, cells)
}

// From what follows the number of points on.
fn points_on(file: &[u8], p: usize, at: usize) -> Result<Layout, Refusal>
    requires { p < 10000000000 }
    ensures { result ≡ points_on file.now p at }
{
    let points = line(file, at, &FLOAT_LINE, 12 * p)?;
    let Counted { value: n, next } = counted(file, points + 12 * p, &CELLS_WORD)?;
    cells_on(file, p, n, points, next)
}

// The layout of a file.
pub fn locate(file: &[u8]) -> Result<Layout, Refusal>
    ensures { result ≡ located_of file.now }
{
    let Counted { value: p, next } = head(file)?;
    points_on(file, p, next)
}

// Stores header lines with a number in them, and answers the place after them.
pub fn put_lines(file: &mut [u8], at: usize, before: &[u8], n: usize, after: &[u8]) -> usize
    requires { at + length (before.now ++ (digits n ++ after.now)) ≤ length file.old }
    ensures { Stored file.old at (before.now ++ (digits n ++ after.now)) result file.new }
{
    let first = decimal::put_text(file, at, before);
    let second = decimal::put_digits(file, first, n);
    decimal::put_text(file, second, after)
}
