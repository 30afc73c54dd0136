//! What the files in JSON share: their values, the texts of numbers of the field, and how they are written.
#![tactic(auto)]

mod laws;
mod reading;
mod writing;

pub use laws::{field_text_laws, read_back_laws};
pub use reading::{felt_at, felt_in, list_at, pair_in, read_json, text_at, whole_at};
pub use writing::{write_felt, write_felts, write_pairs};
