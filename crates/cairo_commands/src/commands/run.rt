//! `run PROGRAM HINTS TRACE MEMORY PUBLIC TABLES`: a program is run with its hints, and the run is written.

ghost use Rattle.std.specs.Prelude.{◌≡◌, ◌≤◌, List, [], ◌∷◌, length, map, IfSome, IfOk, Ok, string_bytes};
ghost use Rattle.casm_word.specs.Transition.{registers};
ghost use Rattle.trace_files.specs.TraceFile.{state_limit, trace_bytes};
ghost use Rattle.trace_files.specs.MemoryFile.{memory_bytes};
ghost use Rattle.trace_files.specs.CellList.{listed};
ghost use Rattle.public_input.specs.Statement.{statement};
ghost use Rattle.public_input.specs.Valid.{IsValid};
ghost use Rattle.public_input.specs.Written.{written as public_bytes};
ghost use Rattle.table_file.specs.Tables.{contents, AreValid};
ghost use Rattle.table_file.specs.Spelling.{spelling};
ghost use Rattle.program_file.specs.Listing.{IsProgram, listing};
ghost use Rattle.hint_cells.specs.HintList.{AreHints, hint_list};
ghost use Rattle.builtin_segments.specs.Rules.{rules_of};
ghost use Rattle.vm_runner.specs.Run.{run_of};
ghost use Rattle.vm_runner.specs.Completes.{ran};
ghost use Rattle.relocation.specs.Relocated.{field_run};
ghost use Rattle.table_builder.specs.Public.{public_of, IsRunOf};
ghost use Rattle.command_words.specs.Calls.{call_of, word_at};
ghost use Rattle.cairo_commands.specs.Request.{Run as RunRequest, request_with};
ghost use Rattle.cairo_commands.specs.Commands.Run as spec;
ghost use Rattle.command_frame.specs.Answer.{says};
ghost use Rattle.command_frame.specs.Parts.{WorksOut, Uses, outputs_in, work_answer};
ghost use Rattle.cairo_commands.specs.Parts.{WasRun};

use crate::hint_files::HintsFile;
use crate::programs::ProgramFile;
use crate::tools::Tools;
use command_frame::{Conclusion, Output, Refusal, Status, Work, read_input};
use command_words::{Command, Form};
use file_port::Store;
use hint_cells::Hints;
use program_file::Program;
use public_input::Public;
use relocation::{FieldRun, relocate};
use std::alloc::{AllocError, Global};
use table_builder::{BuildFault, build, public_of};
use table_file::Tables;
use trace_files::{write_memory, write_trace};
use vm_runner::{Completed, RunFault};

// The positions of the names among the words.
const PROGRAM: usize = 1;

const HINTS: usize = 2;

const TRACE: usize = 3;

const MEMORY: usize = 4;

const PUBLIC: usize = 5;

const TABLES: usize = 6;

/// The names of the files of a call.
#[derive(Clone, Copy)]
pub(crate) struct RunNames<'w> {
    program: &'w str,
    hints: &'w str,
    written: WrittenNames<'w>,
}

/// The names of the files that are written.
#[derive(Clone, Copy)]
struct WrittenNames<'w> {
    trace: &'w str,
    memory: &'w str,
    public: &'w str,
    tables: &'w str,
}

impl<'w> RunNames<'w> {
    /// The names that the words give.
    #[tactic(auto, unfolding(crate::specs::Request::request_with))]
    pub(crate) fn of(form: &Form<'w>) -> Self
        ensures { RunRequest result.program.now result.hints.now result.written.trace.now result.written.memory.now result.written.public.now result.written.tables.now
            ≡ request_with Command.Run (word_at (call_of form.now)) }
    {
        RunNames {
            program: form.word(PROGRAM),
            hints: form.word(HINTS),
            written: WrittenNames {
                trace: form.word(TRACE),
                memory: form.word(MEMORY),
                public: form.word(PUBLIC),
                tables: form.word(TABLES),
            },
        }
    }
}

/// Reads the two files, runs the program, and works out the four files of the run.
#[tactic(auto, unfolding(crate::specs::Commands::Run::run_answer))]
pub(crate) fn run<'w, S: Store>(
    tools: Tools<'_, S>,
    names: RunNames<'w>,
) -> Result<Work<'w>, Refusal<'w>>
    ensures told { IfSome (S.seen tools.entry.store.now).files (λ files.
        WorksOut result (spec.run_answer names.entry.program.now names.entry.hints.now names.entry.written.trace.now
        names.entry.written.memory.now names.entry.written.public.now names.entry.written.tables.now files)) }
    ensures uses { Uses (spec.run_task names.entry.program.now names.entry.hints.now names.entry.written.trace.now
        names.entry.written.memory.now names.entry.written.public.now names.entry.written.tables.now)
        (S.seen tools.entry.store.now) (S.seen tools.exit.0.now) result }
{
    let Tools { store, alloc } = tools;
    let program = read_input::<ProgramFile, S>(alloc, store, PROGRAM, names.program)?;
    let hints = read_input::<HintsFile, S>(alloc, store, HINTS, names.hints)?;
    Ok(ended(alloc, names.written, &program, &hints)?)
}

/// What the run of a program comes to: its files, or why it is refused.
fn ended<'w>(
    alloc: Global,
    names: WrittenNames<'w>,
    program: &Program,
    hints: &Hints,
) -> Result<Work<'w>, AllocError>
    requires { AreHints (hint_list hints.now) }
    ensures { IfOk result (λ work. work_answer work ≡ spec.ended_answer names.entry.trace.now names.entry.memory.now names.entry.public.now names.entry.tables.now
        (listing program.now) (run_of (rules_of (listing program.now).builtins) (listing program.now) (hint_list hints.now))) }
{
    match vm_runner::run(alloc, program, hints) {
        Ok(completed) => written(alloc, names, program, completed),
        Err(RunFault::Memory) => Err(AllocError),
        Err(fault) => refused(alloc, fault),
    }
}

/// How a run is refused.
fn refused<'w>(alloc: Global, fault: RunFault) -> Result<Work<'w>, AllocError>
    ensures { IfOk result (λ work. work_answer work ≡ says Status.Run (spec.refused_line fault)) }
{
    let line = format!(in alloc; "run: {fault}\n")?;
    Ok(Work::of_line(alloc, Conclusion::RunRefused, line))
}

/// What is written and printed of a run of this program that came to its end.
fn written<'w>(
    alloc: Global,
    names: WrittenNames<'w>,
    program: &Program,
    completed: Completed,
) -> Result<Work<'w>, AllocError>
    requires { WasRun (listing program.now) (ran completed) }
    ensures { IfOk result (λ work. work_answer work ≡ spec.ended_answer names.entry.trace.now names.entry.memory.now names.entry.public.now names.entry.tables.now
        (listing program.now) (Ok (ran completed))) }
{
    let run = laid_out(alloc, program, completed)?;
    let public = public_of(alloc, &run)?;
    let tables = tables_of(alloc, program, &public, &run)?;
    let outputs = outputs(alloc, names, &run, &public, &tables)?;
    let line = ended_line(alloc, run.states.len() - 1, run.cells.cells().len())?;
    Ok(Work::of_outputs(outputs, line))
}

/// The run once its segments are laid out. Its memory of segments is given back.
fn laid_out(alloc: Global, program: &Program, completed: Completed) -> Result<FieldRun, AllocError>
    requires { WasRun (listing program.now) (ran completed) }
    ensures { IfOk result (λ run. field_run run ≡ spec.laid_out (listing program.now) (ran completed)) }
{
    let Completed {
        memory,
        states,
        stops,
    } = completed;
    relocate(alloc, &memory, &states, program.builtins(), stops)
}

/// The tables of a run. Nothing stands in their way but want of memory.
fn tables_of(
    alloc: Global,
    program: &Program,
    public: &Public,
    run: &FieldRun,
) -> Result<Tables, AllocError>
    requires program { IsProgram (listing program.now) }
    requires of_program { IsRunOf (listing program.now) (field_run run.now) }
    requires public { statement public.now ≡ public_of (field_run run.now) }
    requires valid { IsValid public.now }
    ensures tables { IfOk result (λ tables. contents tables ≡ spec.run_tables (listing program.now) (field_run run.now)) }
    ensures valid { IfOk result (λ tables. AreValid (contents tables)) }
{
    match build(alloc, program, public, &run.states, &run.cells) {
        Ok(tables) => Ok(tables),
        Err(fault) => match fault {
            BuildFault::Memory => Err(AllocError),
            _ => unreachable!(),
        },
    }
}

/// The four files of a run, in the order in which they are written.
fn outputs<'w>(
    alloc: Global,
    names: WrittenNames<'w>,
    run: &FieldRun,
    public: &Public,
    tables: &Tables,
) -> Result<Vec<Output<'w>>, AllocError>
    requires least { 2 ≤ length run.now.states.items }
    requires most { length run.now.states.items ≤ state_limit }
    requires valid { IsValid public.now }
    requires valid_tables { AreValid (contents tables.now) }
    ensures { IfOk result (λ outputs. outputs_in outputs.items ≡
        (names.entry.trace.now, trace_bytes (map registers run.now.states.items))
        ∷ (names.entry.memory.now, memory_bytes (listed run.now.cells))
        ∷ (names.entry.public.now, public_bytes (statement public.now))
        ∷ (names.entry.tables.now, spelling (contents tables.now))
        ∷ []) }
{
    let mut outputs = Vec::with_capacity(alloc, 4)?;
    outputs.push(Output {
        name: names.trace,
        bytes: write_trace(alloc, &run.states)?,
    })?;
    outputs.push(Output {
        name: names.memory,
        bytes: write_memory(alloc, &run.cells)?,
    })?;
    outputs.push(Output {
        name: names.public,
        bytes: public_input::write(alloc, public)?,
    })?;
    outputs.push(Output {
        name: names.tables,
        bytes: table_file::write(alloc, tables)?,
    })?;
    Ok(outputs)
}

fn ended_line(alloc: Global, steps: usize, cells: usize) -> Result<String, AllocError>
    ensures { IfOk result (λ text. string_bytes text ≡ spec.ended_line steps cells) }
{
    format!(in alloc; "run: {steps} steps, {cells} cells\n")
}
