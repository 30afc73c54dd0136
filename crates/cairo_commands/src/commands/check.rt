//! `check PROGRAM PUBLIC TABLES`: do tables meet every written constraint, and so describe a run of the program?

ghost use Rattle.std.specs.Prelude.{◌≡◌, IfSome, IfOk, string_bytes};
ghost use Rattle.command_words.specs.Calls.{call_of, word_at};
ghost use Rattle.cairo_commands.specs.Request.{Check, request_with};
ghost use Rattle.cairo_commands.specs.Commands.Check as spec;
ghost use Rattle.command_frame.specs.Parts.{WorksOut, Uses};

use crate::programs::ProgramFile;
use crate::table_inputs::{PublicFile, TablesFile};
use crate::tools::Tools;
use command_frame::{Conclusion, Refusal, Work, read_input};
use command_words::{Command, Form};
use constraint_checker::{Constraint, Verdict};
use file_port::Store;
use std::alloc::{AllocError, Global};

// The positions of the names among the words.
const PROGRAM: usize = 1;

const PUBLIC: usize = 2;

const TABLES: usize = 3;

/// The names of the files of a call.
#[derive(Clone, Copy)]
pub(crate) struct CheckNames<'w> {
    program: &'w str,
    public: &'w str,
    tables: &'w str,
}

impl<'w> CheckNames<'w> {
    /// The names that the words give.
    #[tactic(auto, unfolding(crate::specs::Request::request_with))]
    pub(crate) fn of(form: &Form<'w>) -> Self
        ensures { Check result.program.now result.public.now result.tables.now
            ≡ request_with Command.Check (word_at (call_of form.now)) }
    {
        CheckNames {
            program: form.word(PROGRAM),
            public: form.word(PUBLIC),
            tables: form.word(TABLES),
        }
    }
}

/// Reads the three files, and works out the verdict on the tables.
#[tactic(auto, unfolding(crate::specs::Commands::Check::check_answer))]
pub(crate) fn check<'w, S: Store>(
    tools: Tools<'_, S>,
    names: CheckNames<'w>,
) -> Result<Work<'w>, Refusal<'w>>
    ensures told { IfSome (S.seen tools.entry.store.now).files
        (λ files. WorksOut result (spec.check_answer names.entry.program.now names.entry.public.now
        names.entry.tables.now files)) }
    ensures uses { Uses (spec.check_task names.entry.program.now names.entry.public.now names.entry.tables.now)
        (S.seen tools.entry.store.now) (S.seen tools.exit.0.now) result }
{
    let Tools { store, alloc } = tools;
    let listed = read_input::<ProgramFile, S>(alloc, store, PROGRAM, names.program)?;
    let stated = read_input::<PublicFile, S>(alloc, store, PUBLIC, names.public)?;
    let columns = read_input::<TablesFile, S>(alloc, store, TABLES, names.tables)?;
    match constraint_checker::check(alloc, &listed, &stated, &columns)? {
        Verdict::Accepted => {
            let line = accepted_line(alloc, columns.rows.len())?;
            Ok(Work::of_line(alloc, Conclusion::Done, line))
        }
        Verdict::Refused { constraint, row } => {
            let line = refused_line(alloc, constraint, row)?;
            Ok(Work::of_line(alloc, Conclusion::Refused, line))
        }
    }
}

fn accepted_line(alloc: Global, steps: usize) -> Result<String, AllocError>
    ensures { IfOk result (λ text. string_bytes text ≡ spec.accepted_line steps) }
{
    format!(in alloc; "check: accepted, {steps} steps\n")
}

fn refused_line(alloc: Global, constraint: Constraint, row: u64) -> Result<String, AllocError>
    ensures { IfOk result (λ text. string_bytes text ≡ spec.refused_line constraint row) }
{
    format!(in alloc; "check: refused: {constraint} row {row}\n")
}
