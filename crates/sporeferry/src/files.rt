// The writers and readers of both files.
ghost use Rattle.mesh_writer.specs.Step.{WriteDone};
ghost use Rattle.mesh_reader.specs.Step.{ReadDone};
ghost use Rattle.vtk_writer.specs.Step.{WriteDone as VtkWriteDone};
ghost use Rattle.vtk_reader.specs.Step.{ReadDone as VtkReadDone};
ghost use Rattle.sporeferry.specs.Calls.{Called, counted, loaded};

use crate::outcomes::Answer;

pub fn sf_write_mesh(points: &[u32], cells: &[u32], file: &mut [u8], work: &mut [u32]) -> Answer
    ensures { Called counted (λ a. WriteDone points.now cells.now file.old work.old a file.new work.new) result }
{
    Answer::from(mesh_writer::write_mesh(points, cells, file, work))
}

pub fn sf_read_mesh(file: &[u8], points: &mut [u32], cells: &mut [u32], work: &mut [u32]) -> Answer
    ensures { Called loaded (λ a. ReadDone file.now points.old cells.old work.old a points.new cells.new work.new) result }
{
    Answer::from(mesh_reader::read_mesh(file, points, cells, work))
}

pub fn sf_write_vtk(points: &[u32], cells: &[u32], file: &mut [u8], work: &mut [u32]) -> Answer
    ensures { Called counted (λ a. VtkWriteDone points.now cells.now file.old work.old a file.new work.new) result }
{
    Answer::from(vtk_writer::write_vtk(points, cells, file, work))
}

pub fn sf_read_vtk(file: &[u8], points: &mut [u32], cells: &mut [u32], work: &mut [u32]) -> Answer
    ensures { Called loaded (λ a. VtkReadDone file.now points.old cells.old work.old a points.new cells.new work.new) result }
{
    Answer::from(vtk_reader::read_vtk(file, points, cells, work))
}
