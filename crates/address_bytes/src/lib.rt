// Addresses as bytes: in three on the wire (<comms_address>, appendix A), in four in charts and images. A byte past the end counts as 0.
#![tactic(auto)]

mod packed;
mod wide;

pub use packed::{address_key, packed_bytes, packed_in};
pub use wide::{address_bytes, address_in, station_bytes, station_in};

// The bytes of an address on the wire, and in charts and images.
pub const PACKED_SIZE: usize = 3;

pub const ADDRESS_SIZE: usize = 4;
