//! The first step of a run that isn't the transition.

ghost use Rattle.std.specs.Prelude.{◌≡◌, map, option_map};
ghost use Rattle.casm_word.specs.Transition.{outcome_of, registers};
ghost use Rattle.casm_word.specs.Run.{first_refused, is_next};

use crate::stepper::step;
use crate::{Reads, State, StepResult};

/// The first step between the states that isn't the transition, counted from 0, with what the transition comes to in
/// its place.
///
/// `None` says that each step is the transition: the states are a legal run, if there are two of them or more.
pub fn first_refused<M: Reads>(memory: &M, states: &[State]) -> Option<(usize, StepResult)>
    ensures { option_map (λ refused. (refused.0, outcome_of refused.1)) result
        ≡ first_refused (M.cells memory.now) (map registers states.now) }
{
    for (i, pair) in states.windows(2).enumerate() {
        let found = step(memory, pair[0]);
        if !found.is_next(pair[1]) {
            return Some((i, found));
        }
    }
    None
}

impl StepResult {
    /// Whether the step came to the state.
    #[tactic(auto, unfolding(crate::specs::Transition::outcome_of, crate::specs::Transition::registers))]
    pub fn is_next(&self, to: State) -> bool
        ensures { result ≡ is_next (outcome_of self.now) (registers to) }
    {
        match self {
            StepResult::Next(state) => *state == to,
            _ => false,
        }
    }
}
