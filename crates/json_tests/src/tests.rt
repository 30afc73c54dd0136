//! Tables of files. What they say, and their faults, were written by hand from the formats.

mod hints;
mod programs;
mod statements;
mod values;

/// What a test says that finds no memory.
const NO_MEMORY: &str = "no memory";
