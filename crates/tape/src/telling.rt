// What a program says of the calls that it has gone through.
use std::io;

// A line: how many calls there were under a name, and how many of them differ.
pub fn tell(rt: &impl Print, name: &[u8], calls: u64, differences: u64) -> io::Result<()> {
    rt.write_all(name)?;
    println!(rt; ": {calls} calls, {differences} differences")
}
