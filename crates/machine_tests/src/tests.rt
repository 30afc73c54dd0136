//! Tables of calls. What they answer was computed outside, from the tables of the machine.

mod field;
mod relocating;
mod rules;
mod running;
mod segment_values;
mod starts;
mod stepping;
mod words;

use std::alloc::Global;
use std::fmt::Display;
use std::process::Abort;

/// What a test says that finds no memory.
const NO_MEMORY: &str = "no memory";

/// Compares what is printed with a text.
fn check_text(rt: &impl Abort, alloc: Global, printed: &impl Display, wanted: &str) {
    let text = printed.to_string(alloc).expect(rt, NO_MEMORY);
    assert!(rt; text.as_str() == wanted, "{wanted}");
}
