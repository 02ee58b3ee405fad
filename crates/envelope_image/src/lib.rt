// The image of an envelope, 267 bytes (include/poztecameh.h): an envelope put into it, and taken from it.
#![tactic(auto)]

mod putting;
mod taking;

pub use putting::put_envelope;
pub use taking::{addresses_in, fields_in};

pub const ENVELOPE_SIZE: usize = 267;

// The bytes before the destinations.
const FIELDS_SIZE: usize = 15;
