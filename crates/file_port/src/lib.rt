//! A store of named files and a sink for lines, with their faults counted.
//!
//! Programs are written over the traits [`Store`] and [`Sink`]. [`SureStore`] and [`SureSink`] hold all in
//! memory and have no faults. [`MemoryStore`] and [`MemorySink`] fail at the calls that a test lists. [`DiskStore`] and
//! [`OutSink`] are the real files and the standard output.
#![tactic(auto)]

mod disk;
mod memory;
mod ports;
mod replacing;
mod sure;

pub use disk::{DiskStore, OutSink};
pub use memory::{MemorySink, MemoryStore};
pub use ports::{PortError, Sink, Store};
pub use sure::{SureSink, SureStore};
