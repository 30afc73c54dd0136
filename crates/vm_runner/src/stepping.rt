//! The steps of a run, until the program ends.
ghost use Rattle.std.specs.Prelude.{◌≡◌, ◌≢◌, Ok, Err, IfOk, IfErr, OnOk, OnErr, ◌++◌, ◌∷◌, []};
ghost use Rattle.segments.specs.Memory.{IsMemory};
ghost use Rattle.program_file.specs.Listing.{listing};
ghost use Rattle.public_input.specs.Limits.{step_limit};
ghost use Rattle.builtin_segments.specs.Layout.{no_stops};
ghost use Rattle.builtin_segments.specs.Rules.{Rules};
ghost use Rattle.builtin_segments.specs.Start as start;
ghost use Rattle.run_steps.specs.Step as steps;
ghost use Rattle.vm_runner.specs.declared.fault.RunFault.{RunFault};
ghost use Rattle.vm_runner.specs.Run.{as_step, is_end, run_from};

use crate::fault::RunFault;
use builtin_segments::first_state;
use program_file::Program;
use public_input::STEP_LIMIT;
use run_steps::{StepFault, step};
use segments::{RelState, Segments};
use std::alloc::{AllocError, Global};

/// Makes steps from the program's first state until the program ends, and answers all states.
///
/// [`RunFault::Step`] with the index of the first step that can't be made, [`RunFault::StepLimit`] where [`STEP_LIMIT`]
/// steps don't come to the end, and [`RunFault::Memory`].
pub fn make_steps(
    alloc: Global,
    memory: &mut Segments,
    program: &Program,
) -> Result<Vec<RelState>, RunFault>
    requires { IsMemory memory.old }
    ensures made { (rules : Rules) → IfOk result (λ states.
        run_from rules (listing program.now) step_limit 0 memory.old (start.first_state (listing program.now))
        ≡ Ok (record { memory = memory.new; states = states.items; stops = no_stops })) }
    ensures refused { (rules : Rules) → IfErr result (λ fault. fault ≢ RunFault.Memory →
        run_from rules (listing program.now) step_limit 0 memory.old (start.first_state (listing program.now))
        ≡ Err fault) }
    ensures kept { OnOk result (IsMemory memory.new) }
{
    let mut states = Vec::new(alloc);
    let mut state = first_state(program);
    for index in 0..STEP_LIMIT {
        push_state(&mut states, state)?;
        if is_end(program, state) {
            return Ok(states);
        }
        state = make_step(alloc, memory, index, state)?;
    }
    push_state(&mut states, state)?;
    if !is_end(program, state) {
        return Err(RunFault::StepLimit);
    }
    Ok(states)
}

/// Makes the step with this index.
#[tactic(auto, unfolding(crate::specs::Run::as_step))]
fn make_step(
    alloc: Global,
    memory: &mut Segments,
    index: u32,
    state: RelState,
) -> Result<RelState, RunFault>
    ensures made { (rules : Rules) → IfOk result (λ next. steps.step rules memory.old state ≡ Ok (memory.new, next)) }
    ensures refused { (rules : Rules) → IfErr result (λ fault. fault ≢ RunFault.Memory →
        as_step index (steps.step rules memory.old state) ≡ Err fault) }
    ensures kept { OnOk result (IsMemory memory.new) }
{
    match step(alloc, memory, state) {
        Ok(next) => Ok(next),
        Err(StepFault::Refused(cause)) => Err(RunFault::Step { step: index, cause }),
        Err(StepFault::Memory) => Err(RunFault::Memory),
    }
}

/// Adds a state after all others.
fn push_state(states: &mut Vec<RelState>, state: RelState) -> Result<(), AllocError>
    ensures { OnOk result (states.new.items ≡ states.old.items ++ state ∷ []) }
{
    states.push(state)?;
    Ok(())
}

/// Whether the program ends in this state.
#[tactic(auto, unfolding(crate::specs::Run::is_end, crate::specs::Run::same_place))]
fn is_end(program: &Program, state: RelState) -> bool
    ensures { result ≡ is_end (listing program.now) state }
{
    state.pc.seg == 0 && state.pc.off == program.end()
}
