// The step `write_vtk`: the viewer's file of points and cells, a legacy VTK file with the component numbers as cell data.
#![tactic(auto)]

ghost use Rattle.std.specs.Prelude.{◌≡◌, true, ◌+◌, ◌*◌, ◌/◌, ◌≤◌, ◌<◌, length};
ghost use Rattle.std.proofs.lemmas.List.Edits.{sets};
ghost use Rattle.lists.specs.Runs.{Stored, Room};
ghost use Rattle.words.specs.Words.{bytes_of};
ghost use Rattle.components.specs.Parts.{Fits};
ghost use Rattle.file_steps.specs.Parts.{Storable, Placed};
ghost use Rattle.vtk_layout.specs.Texts.{our_title};
ghost use Rattle.vtk_layout.specs.File.{led, vtk_file};
ghost use Rattle.vtk_writer.specs.Step.{bytes_of_counts, vtk_bytes, WriteDone};
ghost use Rattle.vtk_writer.specs.Parts.{led_cell, points_part, cells_part, types_part, numbers_part, Ended};

use refusals::CountError;
use vtk_layout::{
    CELLS_WORD, DATA_WORD, DATASET_LINES, FEED, FLOAT_LINE, SCALAR_LINES, SPACE, TITLE_LINE,
    TYPES_WORD, VERSION_LINE,
};

// Stores cell i, led by a four.
fn put_cell(cells: &[u32], i: usize, file: &mut [u8], at: usize)
    requires { (4 * i + 4 ≤ length cells.now) × (at + 20 ≤ length file.old) }
    ensures { file.new ≡ sets file.old at (bytes_of true (led_cell cells.now i)) }
{
    let first = 4 * i;
    words::put_word(file, at, true, 4);
    words::put_word(file, at + 4, true, cells[first]);
    words::put_word(file, at + 8, true, cells[first + 1]);
    words::put_word(file, at + 12, true, cells[first + 2]);
    words::put_word(file, at + 16, true, cells[first + 3]);
}

// Stores the cells, each led by a four.
fn put_cells(cells: &[u32], file: &mut [u8], at: usize)
    requires { at + 20 * (length cells.now / 4) ≤ length file.old }
    ensures { file.new ≡ sets file.old at (bytes_of true (led cells.now)) }
{
    for i in 0..cells.len() / 4 {
        put_cell(cells, i, file, at + 20 * i);
    }
}

// Stores the header and the points, and answers the place after them.
fn put_points(points: &[u32], file: &mut [u8]) -> usize
    requires { Room file.old 0 (points_part points.now) }
    ensures { Stored file.old 0 (points_part points.now) result file.new }
{
    let title = decimal::put_text(file, 0, &VERSION_LINE);
    let dataset = decimal::put_text(file, title, &TITLE_LINE);
    let block = vtk_layout::put_lines(file, dataset, &DATASET_LINES, points.len() / 3, &FLOAT_LINE);
    words::put_words(points, file, block, true);
    block + 4 * points.len()
}

// Stores the cells behind their header, and answers the place after them.
fn put_cell_block(cells: &[u32], file: &mut [u8], at: usize) -> usize
    requires { Room file.old at (cells_part cells.now) }
    ensures { Stored file.old at (cells_part cells.now) result file.new }
{
    let n = cells.len() / 4;
    let words = vtk_layout::put_lines(file, at, &CELLS_WORD, n, &SPACE);
    let feed = decimal::put_digits(file, words, 5 * n);
    let block = decimal::put_text(file, feed, &FEED);
    put_cells(cells, file, block);
    block + 20 * n
}

// Stores the types of n cells behind their header, and answers the place after them.
fn put_types(n: usize, file: &mut [u8], at: usize) -> usize
    requires { Room file.old at (types_part n) }
    ensures { Stored file.old at (types_part n) result file.new }
{
    let block = vtk_layout::put_lines(file, at, &TYPES_WORD, n, &FEED);
    words::put_same(file, block, true, n, 10);
    block + 4 * n
}

// Stores the component numbers of the cells behind their header, and the last line feed; the work table is left zero.
fn put_numbers(cells: &[u32], file: &mut [u8], at: usize, work: &mut [u32])
    requires { Room file.old at (numbers_part cells.now) × Fits cells.now work.old }
    ensures { Ended cells.now at file.old file.new work.old work.new }
{
    let n = cells.len() / 4;
    let block = vtk_layout::put_lines(file, at, &DATA_WORD, n, &SCALAR_LINES);
    file_components::put_numbers(cells, file, block, true, work);
    let _end = decimal::put_text(file, block + 4 * n, &FEED);
}

// Fills a table of exactly its length with the file of a mesh.
fn put_mesh(points: &[u32], cells: &[u32], file: &mut [u8], work: &mut [u32])
    requires { Storable (vtk_bytes points.now cells.now) points.now cells.now file.old work.old }
    ensures { Placed (vtk_file our_title points.now cells.now) file.new work.old work.new }
{
    let second = put_points(points, file);
    let third = put_cell_block(cells, file, second);
    let last = put_types(cells.len() / 4, file, third);
    put_numbers(cells, file, last, work);
}

// The bytes that the file of a mesh of p points and n cells takes.
fn bytes_for(p: usize, n: usize) -> usize
    requires { (p ≤ 536870912) × (n ≤ 536870912) }
    ensures { result ≡ bytes_of_counts p n }
{
    let points = decimal::count_digits(p);
    let cells = decimal::count_digits(n);
    let numbers = decimal::count_digits(5 * n);
    165 + 12 * p + 28 * n + points + 3 * cells + numbers
}

// Writes the viewer's file of a mesh. Refused with 4, 5 or 8, and with 9 where `file` is shorter than the bytes needed, which it then
// carries: both tables are then as lent. Answered with the bytes written: the first 2 entries a point of `work` are then zero.
// Beside `write_mesh`: a function over both would take a file's bytes and what fills it as closures, with contracts longer than this body.
pub fn write_vtk(
    points: &[u32],
    cells: &[u32],
    file: &mut [u8],
    work: &mut [u32],
) -> Result<u64, CountError>
    ensures { WriteDone points.now cells.now file.old work.old result file.new work.new }
{
    mesh::judge(points.len(), cells, work.len(), 0, 2)?;
    let bytes = bytes_for(points.len() / 3, cells.len() / 4);
    if file.len() < bytes {
        return Err(CountError::Short(bytes as u64));
    }
    let need = 2 * (points.len() / 3);
    put_mesh(points, cells, &mut file[..bytes], &mut work[..need]);
    Ok(bytes as u64)
}
