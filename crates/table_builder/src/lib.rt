//! The tables of a run, built from its states and its memory.
#![tactic(auto)]

mod builder;
mod cells;
mod columns;
mod ends;
mod faults;
mod laws;
mod public;
mod rows;

pub use builder::build;
pub use faults::{BuildFault, Field};
pub use laws::{building_laws, stated_laws, stated_run_laws};
pub use public::public_of;
