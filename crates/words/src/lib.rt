// Words of four bytes, the low byte first or the high one, in a file's bytes. A file and the order of its bytes are given to each call: a
// struct of both would be made anew for most calls, and be no plainer.
#![tactic(auto)]

ghost use Rattle.std.specs.Prelude.{◌≡◌, ◌+◌, ◌*◌, ◌≤◌, ◌<◌, length, replicate};
ghost use Rattle.std.proofs.lemmas.List.Edits.{sets};
ghost use Rattle.lists.specs.Tables.{all_below, same};
ghost use Rattle.words.specs.Words.{bytes4, bytes_of, word_at, words_at, cells_at};
ghost use Rattle.words.specs.Parts.{turned_of, WordsThere, CellsThere};

// The word at a place. The order of the bytes is asked before they are read, so that they are one load.
pub fn word(file: &[u8], at: usize, big: bool) -> u32
    requires { at + 4 ≤ length file.now }
    ensures { result ≡ word_at big file.now at }
{
    if big {
        return u32::from_be_bytes([file[at], file[at + 1], file[at + 2], file[at + 3]]);
    }
    u32::from_le_bytes([file[at], file[at + 1], file[at + 2], file[at + 3]])
}

// The four words from a place on. All are read first, so that what follows takes them at once.
pub fn quad_at(file: &[u8], at: usize, big: bool) -> [u32; 4]
    requires { at + 16 ≤ length file.now }
    ensures { result ≡ words_at big file.now at 4 }
{
    let a = word(file, at, big);
    let b = word(file, at + 4, big);
    let c = word(file, at + 8, big);
    let d = word(file, at + 12, big);
    [a, b, c, d]
}

// Reads as many words from a place on as the table holds.
pub fn get_words(file: &[u8], at: usize, big: bool, table: &mut [u32])
    requires { WordsThere file.now at (length table.old) }
    ensures { table.new ≡ words_at big file.now at (length table.old) }
{
    for (i, entry) in table.iter_mut().enumerate() {
        *entry = word(file, at + 4 * i, big);
    }
}

// Reads n cells from a place on, each `stride` words behind the one before it.
// `CellsThere` is of the file and of what is read next, here and below: no fact of one value.
fn get_apart(file: &[u8], at: usize, stride: usize, big: bool, n: usize, cells: &mut [u32])
    requires { CellsThere stride file.now at n × (length cells.old ≡ 4 * n) }
    ensures { cells.new ≡ cells_at big stride file.now at n }
{
    for i in 0..n {
        lists::store_all(cells, 4 * i, quad_at(file, at + 4 * (stride * i), big));
    }
}

// Reads n cells from a place on. Where no word stands between them they are words.
pub fn get_cells(file: &[u8], at: usize, stride: usize, big: bool, n: usize, cells: &mut [u32])
    requires { CellsThere stride file.now at n × (length cells.old ≡ 4 * n) }
    ensures { cells.new ≡ cells_at big stride file.now at n }
{
    if stride == 4 {
        get_words(file, at, big, cells);
        return;
    }
    get_apart(file, at, stride, big, n, cells);
}

// Whether each of four words from a place on is below the bound.
pub fn four_below(file: &[u8], at: usize, big: bool, bound: u32) -> bool
    requires { at + 16 ≤ length file.now }
    ensures { result ≡ all_below bound (words_at big file.now at 4) }
{
    let [a, b, c, d] = quad_at(file, at, big);
    (a < bound) & (b < bound) & (c < bound) & (d < bound)
}

// Whether each word of n cells from a place on is below the bound.
pub fn cells_below(file: &[u8], at: usize, stride: usize, big: bool, n: usize, bound: u32) -> bool
    requires { CellsThere stride file.now at n }
    ensures { result ≡ all_below bound (cells_at big stride file.now at n) }
{
    for i in 0..n {
        if !four_below(file, at + 4 * (stride * i), big, bound) {
            return false;
        }
    }
    true
}

// The number that the bytes of x are when they are read the low one first.
fn turned(x: u32, big: bool) -> u32
    ensures { result ≡ turned_of big x }
{
    if big {
        return x.swap_bytes();
    }
    x
}

// Whether n words from a place on are all x. x is turned once, in place of each word, and nothing returns early, so that many are
// compared at once.
pub fn all_are(file: &[u8], at: usize, big: bool, n: usize, x: u32) -> bool
    requires { at + 4 * n ≤ length file.now }
    ensures { result ≡ same (words_at big file.now at n) (replicate n x) }
{
    let y = turned(x, big);
    let mut all = true;
    for i in 0..n {
        let p = at + 4 * i;
        if u32::from_le_bytes([file[p], file[p + 1], file[p + 2], file[p + 3]]) != y {
            all = false;
        }
    }
    all
}

// Stores a word at a place. The order of the bytes is asked before they are made, so that they are one store.
pub fn put_word(file: &mut [u8], at: usize, big: bool, x: u32)
    requires { at + 4 ≤ length file.old }
    ensures { file.new ≡ sets file.old at (bytes4 big x) }
{
    if big {
        file[at..at + 4].copy_from_slice(&x.to_be_bytes());
        return;
    }
    file[at..at + 4].copy_from_slice(&x.to_le_bytes());
}

// Stores words from a place on.
pub fn put_words(words: &[u32], file: &mut [u8], at: usize, big: bool)
    requires { at + 4 * length words.now ≤ length file.old }
    ensures { file.new ≡ sets file.old at (bytes_of big words.now) }
{
    for (i, x) in words.iter().enumerate() {
        put_word(file, at + 4 * i, big, *x);
    }
}

// Stores one word n times from a place on.
pub fn put_same(file: &mut [u8], at: usize, big: bool, n: usize, x: u32)
    requires { at + 4 * n ≤ length file.old }
    ensures { file.new ≡ sets file.old at (bytes_of big (replicate n x)) }
{
    for i in 0..n {
        put_word(file, at + 4 * i, big, x);
    }
}
