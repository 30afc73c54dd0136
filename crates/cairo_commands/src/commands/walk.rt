//! `walk TRACE MEMORY`: is each step of a trace the transition to the state after it?

ghost use Rattle.std.specs.Prelude.{◌≡◌, IfSome, IfOk, string_bytes};
ghost use Rattle.casm_word.specs.Transition.{outcome_of};
ghost use Rattle.command_words.specs.Calls.{call_of, word_at};
ghost use Rattle.cairo_commands.specs.Request.{Walk, request_with};
ghost use Rattle.cairo_commands.specs.Commands.Walk as spec;
ghost use Rattle.command_frame.specs.Parts.{WorksOut, Uses};

use crate::run_files::{MemoryFile, TraceFile};
use crate::tools::Tools;
use casm_word::{StepResult, first_refused};
use command_frame::{Conclusion, Refusal, Work, read_input};
use command_words::{Command, Form};
use file_port::Store;
use std::alloc::{AllocError, Global};

// The positions of the names among the words.
const TRACE: usize = 1;

const MEMORY: usize = 2;

/// The names of the files of a call.
#[derive(Clone, Copy)]
pub(crate) struct WalkNames<'w> {
    trace: &'w str,
    memory: &'w str,
}

impl<'w> WalkNames<'w> {
    /// The names that the words give.
    #[tactic(auto, unfolding(crate::specs::Request::request_with))]
    pub(crate) fn of(form: &Form<'w>) -> Self
        ensures { Walk result.trace.now result.memory.now ≡ request_with Command.Walk (word_at (call_of form.now)) }
    {
        WalkNames {
            trace: form.word(TRACE),
            memory: form.word(MEMORY),
        }
    }
}

/// Reads both files and checks each step.
#[tactic(auto, unfolding(crate::specs::Commands::Walk::walk_answer))]
pub(crate) fn walk<'w, S: Store>(
    tools: Tools<'_, S>,
    names: WalkNames<'w>,
) -> Result<Work<'w>, Refusal<'w>>
    ensures told { IfSome (S.seen tools.entry.store.now).files
        (λ files. WorksOut result (spec.walk_answer names.entry.trace.now names.entry.memory.now files)) }
    ensures uses { Uses (spec.walk_task names.entry.trace.now names.entry.memory.now)
        (S.seen tools.entry.store.now) (S.seen tools.exit.0.now) result }
{
    let Tools { store, alloc } = tools;
    let states = read_input::<TraceFile, S>(alloc, store, TRACE, names.trace)?;
    let cells = read_input::<MemoryFile, S>(alloc, store, MEMORY, names.memory)?;
    match first_refused(&cells, &states) {
        None => {
            let line = steps_line(alloc, states.len().saturating_sub(1))?;
            Ok(Work::of_line(alloc, Conclusion::Done, line))
        }
        Some(refused) => {
            let line = refused_line(alloc, refused.0, &refused.1)?;
            Ok(Work::of_line(alloc, Conclusion::Refused, line))
        }
    }
}

fn steps_line(alloc: Global, steps: usize) -> Result<String, AllocError>
    ensures { IfOk result (λ text. string_bytes text ≡ spec.steps_line steps) }
{
    format!(in alloc; "walk: {steps} steps\n")
}

fn refused_line(alloc: Global, step: usize, found: &StepResult) -> Result<String, AllocError>
    ensures { IfOk result (λ text. string_bytes text ≡ spec.refused_line step (outcome_of found.now)) }
{
    format!(in alloc; "walk: refused at step {step}: {found}\n")
}
