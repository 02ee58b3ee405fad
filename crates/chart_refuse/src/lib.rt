// What refuses a chart (document 01, "The chart"): a node, a link or a question after those before it, 23 to 30, and a whole chart given as values. Found by
// keys: a station or an end is one number, and compared at once.
#![tactic(auto)]

mod charts;
mod keys;
mod known;
mod numbers;
mod ranges;

pub use charts::chart_refusal;
pub use keys::{end_key, station_key, station_keys};
pub use numbers::{link_refusal, node_refusal, question_refusal};
