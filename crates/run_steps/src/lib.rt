//! One step of a run: cells that aren't known yet are found out, and the machine goes on to its next state.
#![tactic(auto)]

mod cause;
mod deduction;
mod laws;
mod operands;
mod placing;
mod shown;
mod stepper;
mod transition;

pub use cause::{Spot, StepCause, StepFault};
pub use laws::{deduction_laws, growing_laws, inside_laws, relocation_laws, reread_law, sum_law};
pub use operands::{Found, Places};
pub use stepper::step;
