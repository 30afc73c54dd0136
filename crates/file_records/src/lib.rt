//! Records of a fixed size in files, one after another: numbers, states, cells, rows and range rows.
//!
//! A number takes eight bytes, the lowest first, and a record is its numbers one after another. One pair of functions
//! reads and writes a list of records, whatever they are.
#![tactic(auto)]

mod laws;
mod numbers;
mod records;

pub use laws::number_laws;
pub use numbers::{read_number, write_number};
pub use records::{Record, TraceState, read_records, write_records};
