// Text and decimal counts in a file's bytes, read from the front: at the first byte that departs 14, and 11 where no byte is there.
#![tactic(auto)]

ghost use Rattle.std.specs.Prelude.{◌≡◌, ◌+◌, ◌≤◌, ◌<◌, length};
ghost use Rattle.lists.specs.Runs.{Stored};
ghost use Rattle.decimal.specs.Text.{text_at};
ghost use Rattle.decimal.specs.Digits.{digits, number_at, more_at, count_at};

use refusals::Refusal;

// A count that is there, and the place after it.
#[derive(Clone, Copy, Debug, PartialEq, Eq)]
pub struct Counted {
    pub value: usize,
    pub next: usize,
}

// Passes over a text, and answers the place after it.
// q is counted on with the bytes that are there, since at + the text's length may not fit.
pub fn text(file: &[u8], at: usize, text: &[u8]) -> Result<usize, Refusal>
    ensures { result ≡ text_at text.now file.now at }
{
    let mut q = at;
    for x in text {
        if file.len() <= q {
            return Err(Refusal::Cut);
        }
        if file[q] != *x {
            return Err(Refusal::Text);
        }
        q += 1;
    }
    Ok(q)
}

// Stores a text, and answers the place after it.
pub fn put_text(file: &mut [u8], at: usize, text: &[u8]) -> usize
    requires { at + length text.now ≤ length file.old }
    ensures { Stored file.old at text.now result file.new }
{
    let next = at + text.len();
    file[at..next].copy_from_slice(text);
    next
}

// Stores the digits of n, and answers the place after them.
// By hand, into a lent table: nothing is allocated.
pub fn put_digits(file: &mut [u8], at: usize, n: usize) -> usize
    requires { at + length (digits n) ≤ length file.old }
    ensures { Stored file.old at (digits n) result file.new }
{
    if n < 10 {
        file[at] = (48 + n) as u8;
        return at + 1;
    }
    let next = put_digits(file, at, n / 10);
    file[next] = (48 + n % 10) as u8;
    next + 1
}

// How many digits n has.
// Twenty digits are the most of 64 bits: a room of that size, since nothing is allocated.
pub fn count_digits(n: usize) -> usize
    ensures { result ≡ length (digits n) }
{
    let mut room = [0u8; 20];
    put_digits(&mut room, 0, n)
}

// Passes over the digits of n.
fn digits_of(file: &[u8], at: usize, n: usize) -> Result<usize, Refusal>
    ensures { result ≡ text_at (digits n) file.now at }
{
    let mut room = [0u8; 20];
    let many = put_digits(&mut room, 0, n);
    text(file, at, &room[..many])
}

// Passes over the digits of n; where they are more than ten, no byte is right behind the first ten.
pub fn number(file: &[u8], at: usize, n: usize) -> Result<usize, Refusal>
    ensures { result ≡ number_at n file.now at }
{
    if n < 10_000_000_000 {
        return digits_of(file, at, n);
    }
    let next = digits_of(file, at, n / 10)?;
    if file.len() <= next {
        return Err(Refusal::Cut);
    }
    Err(Refusal::Text)
}

// The count whose first digit, not 0, was read as x: up to nine more digits.
fn more_digits(file: &[u8], at: usize, x: usize) -> Counted
    requires { x < 10 }
    ensures { result ≡ more_at 9 file.now at x }
{
    let mut value = x;
    let mut next = at;
    for _ in 0..9usize {
        if file.len() <= next {
            break;
        }
        let byte = file[next];
        if !byte.is_ascii_digit() {
            break;
        }
        value = 10 * value + usize::from(byte - b'0');
        next += 1;
    }
    Counted { value, next }
}

// Reads a count: ten digits or less, the first of them 0 only where it is alone.
pub fn count(file: &[u8], at: usize) -> Result<Counted, Refusal>
    ensures { result ≡ count_at file.now at }
{
    if file.len() <= at {
        return Err(Refusal::Cut);
    }
    let byte = file[at];
    if !byte.is_ascii_digit() {
        return Err(Refusal::Text);
    }
    let next = at + 1;
    if byte == b'0' {
        return Ok(Counted { value: 0, next });
    }
    Ok(more_digits(file, next, usize::from(byte - b'0')))
}
