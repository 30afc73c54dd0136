//! What a proof makes public of a run: how long it is, where it begins and ends, the ranges of its small values, and
//! cells of its memory. It is read from a JSON file and written to one.
#![tactic(auto)]

mod fault;
mod laws;
mod reading;
mod writing;

pub use fault::{PublicFault, PublicKey};
use goldilocks::{Felt, Pair};
pub use laws::spelling_laws;
pub use reading::read;
pub use writing::write;

/// The most bytes that a public file may have, 2^25.
pub const PUBLIC_LIMIT: usize = 33_554_432;

/// The most steps of a run, 2^20.
pub const STEP_LIMIT: u32 = 1_048_576;

/// The most range cells, 2^18.
pub const RANGE_CELL_LIMIT: u32 = 262_144;

/// The most public cells, 2^18.
pub const PUBLIC_CELL_LIMIT: u32 = 262_144;

/// The first number that has more than 16 bits, 2^16. The small values of a table lie below it.
pub const SMALL_LIMIT: u32 = 65_536;

/// What a proof makes public of a run.
///
/// It is valid where it keeps these limits, and each call that takes one asks that (`IsValid` in `specs/`):
///
/// - it has a step, and no more than [`STEP_LIMIT`];
/// - `rc_min` is at most `rc_max`, which is below [`SMALL_LIMIT`];
/// - there are at most [`RANGE_CELL_LIMIT`] range cells and [`PUBLIC_CELL_LIMIT`] public ones;
/// - the addresses of the public cells ascend strictly.
#[derive(Debug, Drop)]
pub struct Public {
    /// How many steps the run has.
    pub steps: u32,
    /// What ap and fp hold in the first state.
    pub ap_first: Felt,
    /// What ap holds in the last state.
    pub ap_last: Felt,
    /// The least of the small values: the biased offsets and the limbs.
    pub rc_min: u32,
    /// The greatest of the small values.
    pub rc_max: u32,
    /// Where the first range cell lies; the others follow it.
    pub range_begin: Felt,
    /// How many range cells there are.
    pub range_count: u32,
    /// The public cells, by strictly ascending addresses.
    pub cells: Vec<Pair>,
}
