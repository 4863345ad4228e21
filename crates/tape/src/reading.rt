// How a program reads its tape.
ghost use Rattle.std.specs.Prelude.{◌≤◌, length, IfOk};

use std::io;
use std::io::Read;

// Reads until the table is full or the input ends, and answers how many bytes it has put at the table's start.
pub fn read_full(input: &mut impl Read, table: &mut [u8]) -> io::Result<usize>
    ensures { IfOk result (λ n. n ≤ length table.new) }
{
    let mut done: usize = 0;
    for _ in 0..table.len() {
        let n = input.read(&mut table[done..])?;
        if n == 0 {
            break;
        }
        done += n;
    }
    Ok(done)
}
