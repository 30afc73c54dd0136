//! Relocatable values and the memory of a run, while it isn't known yet where its segments will lie.
#![tactic(auto)]

mod arithmetic;
mod column;
mod laws;
mod memory;
mod shown;

pub use arithmetic::{ArithFault, add_value, div_value, mul_value, shift, sub_value};
use goldilocks::Felt;
pub use laws::{address_laws, arithmetic_laws, limit_laws, memory_laws, order_of_places};
pub use memory::{PutCause, PutFault, SEGMENT_LIMIT, Segments, TOTAL_LIMIT};

/// A place in the memory of a run: a segment, and how far from its beginning. Places are ordered by segment and then
/// by offset, and print as `S:O`.
#[derive(Clone, Copy, Debug, PartialEq, Eq, PartialOrd, Ord, Hash)]
pub struct Place {
    /// The segment's number.
    pub seg: u32,
    /// How many cells lie before it in the segment.
    pub off: u32,
}

/// What a cell holds, and what is computed with: a number, or a pointer. It prints as its number or as `S:O`.
#[derive(Clone, Copy, Debug, PartialEq, Eq)]
pub enum Value {
    /// A number of the field.
    Num(Felt),
    /// A place, whose address is known once the segments are laid out.
    Ptr(Place),
}

/// The three registers of a run that isn't relocated yet.
#[derive(Clone, Copy, Debug, PartialEq, Eq)]
pub struct RelState {
    /// Where the instruction lies.
    pub pc: Place,
    /// Where the next free cell lies.
    pub ap: Place,
    /// Where the frame of the current function lies.
    pub fp: Place,
}
