// What comes back, printed after the line that asked.
use std::io::Result;

// The number, and two values beside it.
pub fn answered(rt: &impl Print, number: u8, first: u64, second: u64) -> Result<()> {
    print!(rt; ": {number} {first} {second}")
}
