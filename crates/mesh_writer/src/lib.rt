// The step `write_mesh`: the mesh file of points and cells.
#![tactic(auto)]

ghost use Rattle.file_steps.specs.Parts.{Storable, Placed};
ghost use Rattle.mesh_layout.specs.Layout.{mesh_file};
ghost use Rattle.mesh_writer.specs.Step.{bytes_for, WriteDone};

use refusals::CountError;

// Fills a table of exactly its length with the file of a mesh.
fn put_mesh(points: &[u32], cells: &[u32], file: &mut [u8], work: &mut [u32])
    requires { Storable (bytes_for points.now cells.now) points.now cells.now file.old work.old }
    ensures { Placed (mesh_file points.now cells.now) file.new work.old work.new }
{
    let second = 4 + 4 * points.len();
    let third = second + 4 + 4 * cells.len();
    mesh_layout::put_section(points, 3, file, 0);
    mesh_layout::put_section(cells, 4, file, second);
    words::put_word(file, third, false, (cells.len() / 4) as u32);
    file_components::put_numbers(cells, file, third + 4, false, work);
}

// Writes the file of a mesh. Refused with 4, 5 or 8, and with 9 where `file` is shorter than the bytes needed, which it then carries:
// both tables are then as lent. Answered with the bytes written: the first 2 entries a point of `work` are then zero.
// Beside `write_vtk`: a function over both would take a file's bytes and what fills it as closures, with contracts longer than this body.
pub fn write_mesh(
    points: &[u32],
    cells: &[u32],
    file: &mut [u8],
    work: &mut [u32],
) -> Result<u64, CountError>
    ensures { WriteDone points.now cells.now file.old work.old result file.new work.new }
{
    mesh::judge(points.len(), cells, work.len(), 0, 2)?;
    let bytes = 12 + 12 * (points.len() / 3) + 20 * (cells.len() / 4);
    if file.len() < bytes {
        return Err(CountError::Short(bytes as u64));
    }
    let need = 2 * (points.len() / 3);
    put_mesh(points, cells, &mut file[..bytes], &mut work[..need]);
    Ok(bytes as u64)
}
