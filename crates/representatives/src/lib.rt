// The step `representatives`: the cells whose probe answers decide, each with its centroid.
#![tactic(auto)]

ghost use Rattle.std.specs.Prelude.{◌≡◌, length, replicate};
ghost use Rattle.groups.specs.Parts.{Laid, Labelled};
ghost use Rattle.representatives.specs.Step.{RepresentativesDone};
ghost use Rattle.representatives.specs.Parts.{Readable, is_last, Storable, ListedAt, Storing, Listed, RoomFor, Found, Represents};

use refusals::CountError;

// Whether the cell i is not crossed, and the last of its group.
fn is_last(crossing: &[u8], work: &[u32], n: usize, i: usize) -> bool
    requires { Readable crossing.now work.now n i }
    ensures { result ≡ is_last crossing.now work.now n i }
{
    if !links::is_free(crossing, i) {
        return false;
    }
    groups::label_at(work, n, i) == i
}

fn count_last(cells: &[u32], crossing: &[u8], work: &[u32], n: usize) -> usize
    requires { Labelled cells.now crossing.now work.now n }
    ensures { RoomFor cells.now crossing.now result }
{
    let mut count: usize = 0;
    for i in 0..cells.len() / 4 {
        if is_last(crossing, work, n, i) {
            count += 1;
        }
    }
    count
}

// Stores the number and the centroid of the cell i as those of place k, where it is one of the list, and answers the next place.
fn list_at(
    points: &[u32],
    cells: &[u32],
    numbers: &mut [u32],
    centroids: &mut [u32],
    last: bool,
    i: usize,
    k: usize,
) -> usize
    requires { Storable points.now cells.now numbers.old centroids.old last i k }
    ensures { ListedAt points.now cells.now numbers.old centroids.old numbers.new centroids.new last i k result }
{
    if !last {
        return k;
    }
    let z = volume::centroid(volume::corners_at(points, mesh::cell_at(cells, i)));
    lists::store_all(
        centroids,
        3 * k,
        [
            float32::from_f32(z.x),
            float32::from_f32(z.y),
            float32::from_f32(z.z),
        ],
    );
    numbers[k] = i as u32;
    k + 1
}

fn list_last(
    points: &[u32],
    cells: &[u32],
    crossing: &[u8],
    numbers: &mut [u32],
    centroids: &mut [u32],
    work: &[u32],
    n: usize,
)
    requires { Storing points.now cells.now crossing.now numbers.old centroids.old work.now n }
    ensures { Listed points.now cells.now crossing.now numbers.new centroids.new }
{
    let mut k: usize = 0;
    for i in 0..cells.len() / 4 {
        let last = is_last(crossing, work, n, i);
        k = list_at(points, cells, numbers, centroids, last, i, k);
    }
}

// Lists the representatives where there is room for all of them.
fn list_in_room(
    points: &[u32],
    cells: &[u32],
    crossing: &[u8],
    numbers: &mut [u32],
    centroids: &mut [u32],
    work: &[u32],
    n: usize,
) -> Result<u64, CountError>
    requires { Found points.now cells.now crossing.now work.now n }
    ensures { Represents points.now cells.now crossing.now numbers.old centroids.old result numbers.new centroids.new }
{
    let count = count_last(cells, crossing, work, n);
    if numbers.len() < count {
        return Err(CountError::Short(count as u64));
    }
    if centroids.len() / 3 < count {
        return Err(CountError::Short(count as u64));
    }
    let places = 3 * count;
    list_last(
        points,
        cells,
        crossing,
        &mut numbers[..count],
        &mut centroids[..places],
        work,
        n,
    );
    Ok(count as u64)
}

// The representatives, with a work table of one entry a point and a cell that holds anything and is left zero.
fn represent(
    points: &[u32],
    cells: &[u32],
    crossing: &[u8],
    numbers: &mut [u32],
    centroids: &mut [u32],
    work: &mut [u32],
    n: usize,
) -> Result<u64, CountError>
    requires { Laid points.now cells.now work.old n }
    ensures { (work.new ≡ replicate (length work.old) 0) × Represents points.now cells.now crossing.now numbers.old centroids.old result numbers.new centroids.new }
{
    groups::settle(cells, crossing, work, n);
    let answer = list_in_room(points, cells, crossing, numbers, centroids, work, n);
    work.fill(0);
    answer
}

// The cells whose probe answers decide, ascending, each with its centroid. Refused with 4, 5, 6 or 8: all tables are then as lent. With 9,
// which carries how many there are, where one of the result tables is too short: these are then as lent, and the first entry a point and
// a cell of `work` is zero, as on an answer.
pub fn representatives(
    points: &[u32],
    cells: &[u32],
    crossing: &[u8],
    numbers: &mut [u32],
    centroids: &mut [u32],
    work: &mut [u32],
) -> Result<u64, CountError>
    ensures { RepresentativesDone points.now cells.now crossing.now numbers.old centroids.old work.old result numbers.new centroids.new work.new }
{
    groups::judge(points.len(), cells, crossing, work.len(), 1, 1)?;
    let n = points.len() / 3;
    let need = n + cells.len() / 4;
    represent(
        points,
        cells,
        crossing,
        numbers,
        centroids,
        &mut work[..need],
        n,
    )
}
