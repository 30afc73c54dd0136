//! `tables PROGRAM PUBLIC TRACE MEMORY TABLES`: tables are built of a run, which is given by its trace and its memory.

ghost use Rattle.std.specs.Prelude.{◌≡◌, IfSome, IfOk, Ok, string_bytes};
ghost use Rattle.table_file.specs.Tables.{contents, AreValid};
ghost use Rattle.table_builder.specs.Findings.{finding_of};
ghost use Rattle.command_words.specs.Calls.{call_of, word_at};
ghost use Rattle.cairo_commands.specs.Request.{Tables as TablesRequest, request_with};
ghost use Rattle.cairo_commands.specs.Commands.Tables as spec;
ghost use Rattle.command_frame.specs.Parts.{WorksOut, Uses, work_answer};
ghost use Rattle.cairo_commands.specs.Parts.{TellsFinding};

use crate::programs::ProgramFile;
use crate::run_files::{MemoryFile, TraceFile};
use crate::table_inputs::PublicFile;
use crate::tools::Tools;
use command_frame::{Conclusion, Refusal, Work, read_input};
use command_words::{Command, Form};
use file_port::Store;
use std::alloc::{AllocError, Global};
use table_builder::BuildFault;
use table_file::Tables;

// The positions of the names among the words.
const PROGRAM: usize = 1;

const PUBLIC: usize = 2;

const TRACE: usize = 3;

const MEMORY: usize = 4;

const TABLES: usize = 5;

/// The names of the files of a call.
#[derive(Clone, Copy)]
pub(crate) struct TablesNames<'w> {
    program: &'w str,
    public: &'w str,
    trace: &'w str,
    memory: &'w str,
    tables: &'w str,
}

impl<'w> TablesNames<'w> {
    /// The names that the words give.
    #[tactic(auto, unfolding(crate::specs::Request::request_with))]
    pub(crate) fn of(form: &Form<'w>) -> Self
        ensures { TablesRequest result.program.now result.public.now result.trace.now result.memory.now result.tables.now
            ≡ request_with Command.Tables (word_at (call_of form.now)) }
    {
        TablesNames {
            program: form.word(PROGRAM),
            public: form.word(PUBLIC),
            trace: form.word(TRACE),
            memory: form.word(MEMORY),
            tables: form.word(TABLES),
        }
    }
}

/// Reads the four files, and works out the tables.
#[tactic(auto, unfolding(crate::specs::Commands::Tables::tables_answer))]
pub(crate) fn tables<'w, S: Store>(
    tools: Tools<'_, S>,
    names: TablesNames<'w>,
) -> Result<Work<'w>, Refusal<'w>>
    ensures told { IfSome (S.seen tools.entry.store.now).files (λ files.
        WorksOut result (spec.tables_answer names.entry.program.now names.entry.public.now
        names.entry.trace.now names.entry.memory.now names.entry.tables.now files)) }
    ensures uses { Uses (spec.tables_task names.entry.program.now names.entry.public.now
        names.entry.trace.now names.entry.memory.now names.entry.tables.now)
        (S.seen tools.entry.store.now) (S.seen tools.exit.0.now) result }
{
    let Tools { store, alloc } = tools;
    let listed = read_input::<ProgramFile, S>(alloc, store, PROGRAM, names.program)?;
    let stated = read_input::<PublicFile, S>(alloc, store, PUBLIC, names.public)?;
    let states = read_input::<TraceFile, S>(alloc, store, TRACE, names.trace)?;
    let cells = read_input::<MemoryFile, S>(alloc, store, MEMORY, names.memory)?;
    match table_builder::build(alloc, &listed, &stated, &states, &cells) {
        Ok(columns) => Ok(built(alloc, names.tables, &columns)?),
        Err(fault) => Ok(refused(alloc, fault)?),
    }
}

/// What is written and printed of tables that are built.
fn built<'w>(alloc: Global, tables: &'w str, columns: &Tables) -> Result<Work<'w>, AllocError>
    requires { AreValid (contents columns.now) }
    ensures { IfOk result (λ work. work_answer work ≡ spec.built_answer tables.now (Ok (contents columns.now))) }
{
    let bytes = table_file::write(alloc, columns)?;
    let line = built_line(alloc, columns.rows.len(), bytes.len())?;
    Work::of_output(alloc, tables, bytes, line)
}

/// How a run is refused, for what stands in the way of its tables.
fn refused<'w>(alloc: Global, fault: BuildFault) -> Result<Work<'w>, AllocError>
    ensures { TellsFinding (finding_of fault) result }
{
    match fault {
        BuildFault::Memory => Err(AllocError),
        fault => {
            let line = format!(in alloc; "tables: refused: {fault}\n")?;
            Ok(Work::of_line(alloc, Conclusion::Refused, line))
        }
    }
}

fn built_line(alloc: Global, steps: usize, bytes: usize) -> Result<String, AllocError>
    ensures { IfOk result (λ text. string_bytes text ≡ spec.built_line steps bytes) }
{
    format!(in alloc; "tables: {steps} steps, {bytes} bytes\n")
}
