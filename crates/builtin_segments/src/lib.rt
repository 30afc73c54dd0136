//! The segments of a run: which is which, what they hold when a program starts, and how cells are placed in them.
#![tactic(auto)]

mod cells;
mod laws;
mod layout;
mod shown;
mod start;

pub use cells::{CellCause, CellFault, place_cell};
pub use laws::{adding_laws, start_laws};
pub use layout::{EXECUTION, Layout, Stops};
pub use start::{first_state, start_segments, start_stack_length};
