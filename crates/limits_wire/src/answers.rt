// What comes back, printed after the line that asked.
use std::io::Result;

// One value more.
pub fn value(rt: &impl Print, n: u64) -> Result<()> {
    print!(rt; " {n}")
}

// The number, and two values beside it.
pub fn answered(rt: &impl Print, number: u8, first: u64, second: u64) -> Result<()> {
    print!(rt; ": {number} {first} {second}")
}
