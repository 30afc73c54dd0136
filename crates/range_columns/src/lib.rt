//! The range columns: cells cut into limbs of 16 bits, and all small values sorted so that their range can be seen.
#![tactic(auto)]

mod checking;
mod laws;
mod limbs;
mod sorting;

pub use checking::range_fault;
use goldilocks::Felt;
pub use laws::range_fault_laws;
pub use limbs::{limb_fault, split};
pub use sorting::sort_range;

/// The most limbs that a range cell may have, 3.
pub const LIMB_LIMIT: u8 = 3;

/// A range cell and its limbs: `value = l0` for cells of one limb, `value = l0 + 2^16 l1` for those of two, and
/// `value = l0 + 2^16 l1 + 2^32 l2` for those of three.
#[derive(Clone, Copy, Debug, PartialEq, Eq)]
pub struct RangeRow {
    /// The cell.
    pub value: Felt,
    /// The lowest 16 bits.
    pub l0: Felt,
    /// The next 16 bits. In cells of one limb `split` repeats `l0` here, and no equation asks for it.
    pub l1: Felt,
    /// The highest 16 bits. In cells of one or two limbs `split` repeats `l0` here, and no equation asks for it.
    pub l2: Felt,
}

/// The columns of the small values in the tables.
#[derive(Debug, Drop)]
pub struct RangeColumns {
    /// The values of the range that are absent, ascending.
    pub fill: Vec<Felt>,
    /// All values with the fillers, in order.
    pub sorted: Vec<Felt>,
}

/// The first equation of the lists that fails.
#[derive(Clone, Copy, Debug, PartialEq, Eq)]
pub struct RangeFault {
    /// 1 to 4, for Q1 to Q4.
    pub number: u8,
    /// 0 for Q1, the first of the two neighbours for Q2, the last place for Q3; for Q4 the first place where the two
    /// ordered lists differ.
    pub row: u64,
}
