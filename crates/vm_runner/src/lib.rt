//! The run of a program with its hints, until the program ends or the run is refused.
#![tactic(auto)]

mod fault;
mod hints;
mod laws;
mod runner;
mod stepping;

pub use builtin_segments::CellCause;
use builtin_segments::Stops;
pub use fault::RunFault;
pub use laws::completed_laws;
pub use public_input::STEP_LIMIT;
pub use run_steps::{Spot, StepCause};
pub use runner::run;
use segments::{RelState, Segments};

/// What a run that came to its end leaves.
#[derive(Drop)]
pub struct Completed {
    /// The memory, with each cell that the run found out.
    pub memory: Segments,
    /// All states in their order: the first one, and one more for each step.
    pub states: Vec<RelState>,
    /// How much of each builtin's segment is used.
    pub stops: Stops,
}
