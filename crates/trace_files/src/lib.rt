//! Trace files and memory files, and the cells of a memory as they are read from one.
//!
//! All numbers in these files are below p = 2^64 - 2^32 + 1 and take eight bytes each, the lowest first. A trace file
//! has the states of a run, a memory file the cells of a memory by ascending addresses; nothing else stands in them.
#![tactic(auto)]

mod cell_list;
mod fault;
mod file_numbers;
mod laws;
mod memory_file;
mod trace_file;

pub use cell_list::{CellList, MEMORY_CELL_LIMIT};
pub use fault::FileFault;
pub use laws::{reading_laws, writing_laws};
pub use memory_file::{MEMORY_LIMIT, read_memory, write_memory};
pub use trace_file::{STATE_LIMIT, TRACE_LIMIT, read_trace, write_trace};
