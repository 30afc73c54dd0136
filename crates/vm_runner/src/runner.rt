//! The run of a program with its hints.
ghost use Rattle.std.specs.Prelude.{◌≡◌, ◌≢◌, ◌==◌, not, Ok, Err, IfOk, IfErr};
ghost use Rattle.segments.specs.Memory.{IsMemory};
ghost use Rattle.program_file.specs.Listing.{listing};
ghost use Rattle.hint_cells.specs.HintList.{hint_list};
ghost use Rattle.builtin_segments.specs.Layout.{builtin_count};
ghost use Rattle.builtin_segments.specs.Rules.{Rules, rules_of};
ghost use Rattle.vm_runner.specs.declared.fault.RunFault.{RunFault};
ghost use Rattle.vm_runner.specs.declared.Completed.{Completed};
ghost use Rattle.vm_runner.specs.Run.{run_in, run_of};
ghost use Rattle.vm_runner.specs.Completes.{Completes, ran};

use crate::Completed;
use crate::fault::RunFault;
use crate::hints::place_hints;
use crate::stepping::make_steps;
use builtin_segments::{Stops, start_segments};
use hint_cells::Hints;
use program_file::{Builtins, Program};
use segments::Segments;
use std::alloc::Global;

/// Runs a program with its hints, until the program ends for the first time.
///
/// Else it is the first cause against the run, in this order: [`RunFault::Builtins`] where the program names a builtin,
/// [`RunFault::Hint`] for the first hint that may not be placed, [`RunFault::NoSteps`] where the program starts where it
/// ends, [`RunFault::Step`] for the first step that can't be made, and [`RunFault::StepLimit`] where
/// [`crate::STEP_LIMIT`] steps don't come to the end. [`RunFault::Memory`] may come at any time.
pub fn run(alloc: Global, program: &Program, hints: &Hints) -> Result<Completed, RunFault>
    ensures completed { IfOk result (λ c.
        run_of (rules_of (listing program.now).builtins) (listing program.now) (hint_list hints.now) ≡ Ok (ran c)) }
    ensures refused { IfErr result (λ fault. fault ≢ RunFault.Memory →
        run_of (rules_of (listing program.now).builtins) (listing program.now) (hint_list hints.now) ≡ Err fault) }

    // What the run keeps, from the program and the hints to its last state.
    ensures completes { IfOk result (λ c. Completes (listing program.now) (hint_list hints.now) (ran c)) }
{
    program_file::bound_laws(program);
    hint_cells::bound_laws(hints);
    let completed = run_whole(alloc, program, hints)?;
    Ok(completed)
}

/// Runs a program with its hints, as [`run`] does.
#[tactic(auto, unfolding(crate::specs::Run::run_of))]
fn run_whole(alloc: Global, program: &Program, hints: &Hints) -> Result<Completed, RunFault>
    ensures completed { (rules : Rules) → IfOk result (λ c.
        run_of rules (listing program.now) (hint_list hints.now) ≡ Ok (ran c)) }
    ensures refused { (rules : Rules) → IfErr result (λ fault. fault ≢ RunFault.Memory →
        run_of rules (listing program.now) (hint_list hints.now) ≡ Err fault) }
    ensures kept { IfOk result (λ c. IsMemory c.memory) }
{
    if has_builtins(program.builtins()) {
        return Err(RunFault::Builtins);
    }
    let mut memory = start_segments(alloc, program, hints.extra())?;
    place_hints(alloc, &mut memory, hints.cells())?;
    run_in(alloc, memory, program)
}

/// Runs a program in a memory that has its hints.
#[tactic(auto, unfolding(crate::specs::Run::run_in))]
fn run_in(alloc: Global, memory: Segments, program: &Program) -> Result<Completed, RunFault>
    requires { IsMemory memory }
    ensures completed { (rules : Rules) → IfOk result (λ c. run_in rules (listing program.now) memory ≡ Ok (ran c)) }
    ensures refused { (rules : Rules) → IfErr result (λ fault. fault ≢ RunFault.Memory →
        run_in rules (listing program.now) memory ≡ Err fault) }
    ensures kept { IfOk result (λ c. IsMemory c.memory) }
{
    if program.start() == program.end() {
        return Err(RunFault::NoSteps);
    }
    let mut memory = memory;
    let states = make_steps(alloc, &mut memory, program)?;
    let stops = Stops {
        output: None,
        range: None,
    };
    Ok(Completed {
        memory,
        states,
        stops,
    })
}

/// Whether any builtin is named.
#[tactic(auto, unfolding(builtin_segments::specs::Layout::builtin_count))]
fn has_builtins(builtins: Builtins) -> bool
    ensures { result ≡ not (builtin_count builtins == 0) }
{
    builtins.output || builtins.range
}
