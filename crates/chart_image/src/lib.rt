// The image of a chart, 937 bytes (include/poztecameh.h): a chart put into it, and taken from it.
#![tactic(auto)]

use chart::{MOST_LINKS, MOST_NODES};
use chart_read::DIRECTED_LENGTH;

mod putting;
mod taking;

pub use putting::put_chart;
pub use taking::chart_in;

// Where the nodes and the links begin, the bytes of each, and of the whole.
const NODES_START: usize = 9;

const NODE_SIZE: usize = 28;

const LINKS_START: usize = NODES_START + NODE_SIZE * MOST_NODES as usize;

const LINK_SIZE: usize = DIRECTED_LENGTH;

pub const CHART_IMAGE_SIZE: usize = LINKS_START + LINK_SIZE * MOST_LINKS as usize;
