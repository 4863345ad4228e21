// The layout of the mesh file: three sections, each after the count of its entries, in words whose low byte is first.
#![tactic(auto)]

ghost use Rattle.std.specs.Prelude.{◌≡◌, ◌+◌, ◌*◌, ◌/◌, ◌≤◌, ◌<◌, length};
ghost use Rattle.std.proofs.lemmas.List.Edits.{sets};
ghost use Rattle.mesh_layout.specs.Layout.{section, count_at, whole_at, cut_at, end_of, blocks_of};
ghost use Rattle.mesh_layout.specs.Parts.{Entries, Standing, Laid};

use file_components::Blocks;

// Stores a section of entries of `size` words.
// `Entries` bounds a divisor, here and below: as a const parameter it would be the same clause of each instance.
pub fn put_section(table: &[u32], size: usize, file: &mut [u8], at: usize)
    requires { Entries size × (at + 4 + 4 * length table.now ≤ length file.old) × (length table.now / size < 4294967296) }
    ensures { file.new ≡ sets file.old at (section size table.now) }
{
    words::put_word(file, at, false, (table.len() / size) as u32);
    words::put_words(table, file, at + 4, false);
}

// The count that a section starts with.
pub fn count(file: &[u8], at: usize) -> usize
    requires { at + 4 ≤ length file.now }
    ensures { (result ≡ count_at file.now at) × (result < 4294967296) }
{
    words::word(file, at, false) as usize
}

// How many entries of `size` words are there whole, of those that the section at a place announces.
pub fn whole(file: &[u8], at: usize, size: usize) -> usize
    requires { Entries size × (at + 4 ≤ length file.now) }
    ensures { result ≡ whole_at size file.now at }
{
    let announced = count(file, at);
    let there = (file.len() - (at + 4)) / (4 * size);
    announced.min(there)
}

// Whether the file ends inside the section at a place, or inside its count.
pub fn is_cut(file: &[u8], at: usize, size: usize) -> bool
    requires { Entries size × (at ≤ length file.now) }
    ensures { result ≡ cut_at size file.now at }
{
    if file.len() - at < 4 {
        return true;
    }
    whole(file, at, size) < count(file, at)
}

// Where a section ends that is there.
pub fn end_of(file: &[u8], at: usize, size: usize) -> usize
    requires { Standing size file.now at }
    ensures { result ≡ end_of size file.now at }
{
    at + 4 + 4 * (size * count(file, at))
}

// Where a file has its mesh whose sections are there.
pub fn blocks(file: &[u8]) -> Blocks
    requires { Laid file.now }
    ensures { result ≡ blocks_of file.now }
{
    let second = end_of(file, 0, 3);
    let third = end_of(file, second, 4);
    let p = count(file, 0);
    let n = count(file, second);
    let m = count(file, third);
    Blocks {
        p,
        n,
        m,
        points: 4,
        cells: second + 4,
        numbers: third + 4,
        stride: 4,
        big: false,
    }
}
