//! From the items of an assembly text to the words of a program, and back.
#![tactic(auto)]

mod assembling;
mod disassembling;
mod fault;
mod laws;
mod outcome;
mod reading;
mod survey;
mod words;

pub use assembling::assemble;
use casm_text::Name;
pub use disassembling::disassemble;
pub use fault::AsmFault;
use goldilocks::Felt;
use indexmap::IndexMap;
pub use laws::{line_laws, place_laws, shown_laws};
pub use outcome::assembling_laws;

/// A program with the labels of its text.
#[derive(Drop)]
pub struct Assembled {
    /// The words.
    pub words: Vec<Felt>,
    /// The labels in their order, each with the number of words before it.
    pub labels: IndexMap<Name, u32>,
    /// Where the program starts, as the number of a word.
    pub start: u32,
    /// Where it ends.
    pub end: u32,
    /// Its output is public.
    pub output: bool,
    /// It has range-checked cells.
    pub range: bool,
}
