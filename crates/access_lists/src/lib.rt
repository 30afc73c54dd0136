//! The lists that tables are made from and checked by: every access to the memory, and every small value.
//!
//! Each list has parts, which are slices. A whole list takes its memory once; a caller that has its parts one after
//! another pushes them one by one.
#![tactic(auto)]

mod cells;
mod values;

pub use cells::{Accesses, push_cells_from, push_range_cells, push_row_cells, row_cells};
pub use values::{SmallValues, limbs, push_limbs, push_offsets, row_offsets};
