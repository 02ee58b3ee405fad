// The envelope (3.3, appendix A): its fields, where they stand in a frame, and the refusals that its reader and its writer share.
#![tactic(auto)]

use address::{Address, Seq};

mod frame;
mod keys;
mod refusing;

pub use frame::check;
pub use refusing::{LONGEST_CONTENTS, LOWEST_PRIORITY, MOST_DESTINATIONS, judged_by};

// Where the destinations of a frame begin, and where the contents of a frame without destinations would; each destination takes three bytes more.
pub const DESTINATIONS_OFFSET: usize = 5;

pub const CONTENTS_OFFSET: usize = 9;

// The size of a frame without destinations and contents.
pub const SMALLEST_FRAME: usize = 10;

// The fixed fields of an envelope. The destinations and the contents stay in the frame.
#[derive(Clone, Copy)]
pub struct Fixed {
    pub source: Address,
    pub count: u8,
    pub length: u16,
    pub priority: u8,
    pub version: u8,
    pub ack: bool,
    pub seq: Seq,
    pub kind: u8,
}
