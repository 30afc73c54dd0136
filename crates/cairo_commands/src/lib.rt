//! The commands of the tool, over a store of files and a sink for one line.
#![tactic(auto)]

ghost use Rattle.std.specs.Prelude.{◌≡◌, None, IfSome};
ghost use Rattle.command_frame.specs.Parts.{WorksOut, Uses, Plans};
ghost use Rattle.command_words.specs.Calls.{call_of};
ghost use Rattle.cairo_commands.specs.Request.{request_for};
ghost use Rattle.cairo_commands.specs.Reply.{reply, request_of, task_of, task};
ghost use Rattle.cairo_commands.specs.Perform.{Performs};

mod again;
mod commands;
mod hint_files;
mod laws;
mod programs;
mod run_files;
mod table_inputs;
mod tools;

pub use again::{again_laws, run_again_laws};
pub use command_frame::{Status, sure_laws};
use command_frame::{Refusal, Work, finish};
use command_words::{Command, Form, form};
use commands::asm::{AsmNames, asm};
use commands::check::{CheckNames, check};
use commands::dis::{DisNames, dis};
use commands::run::{RunNames, run};
use commands::tables::{TablesNames, tables};
use commands::walk::{WalkNames, walk};
use file_port::{Sink, Store};
pub use laws::{completed_run_laws, limit_laws, position_laws, reply_laws};
use std::alloc::Global;
use tools::Tools;

/// Does what the words ask for, with the files of the store, and prints one line to the sink.
///
/// The words are a command and its names:
///
/// - `walk TRACE MEMORY` checks whether each step of a trace is the transition of the Cairo machine in a memory.
/// - `asm TEXT PROGRAM` assembles an assembly text, and writes the program file.
/// - `dis PROGRAM TEXT` shows the words of a program file, and writes them as an assembly text.
/// - `run PROGRAM HINTS TRACE MEMORY PUBLIC TABLES` runs a program with its hints, and writes the run: its trace, its
///   memory, its public input and its tables. `walk` and `check` accept what it writes.
/// - `tables PROGRAM PUBLIC TRACE MEMORY TABLES` builds the tables of a run, and writes their file, which `check`
///   accepts.
/// - `check PROGRAM PUBLIC TABLES` checks whether tables meet every written constraint. Accepted tables describe a run of
///   the program with this public input.
///
/// [`Status`] says when each ending comes. The answer, the files and the line are those of the reply, which is a
/// function of the words and the files. A call of the store or the sink that fails, or want of memory, ends it before.
pub fn perform<S: Store, K: Sink>(
    alloc: Global,
    words: &[String],
    store: &mut S,
    sink: &mut K,
) -> Status
    // What a call answers, writes and prints, what each ending means, and what shows it.
    ensures performs { Performs words.now (S.seen store.old) (S.seen store.new) (K.seen sink.old) (K.seen sink.new) result }
    // In every store, words that are an unknown command leave the store as it was.
    ensures untouched { request_of words.now ≡ None → store.new ≡ store.old }
{
    let planned = plan(alloc, words, store);
    finish(alloc, store, sink, planned)
}

/// Reads the files of the command and works out what it writes and prints.
fn plan<'w, S: Store>(
    alloc: Global,
    words: &'w [String],
    store: &mut S,
) -> Result<Work<'w>, Refusal<'w>>
    ensures told { IfSome (S.seen store.old).files (λ files. WorksOut result (reply words.now files)) }
    ensures uses { Plans (task_of words.now) (S.seen store.old) (S.seen store.new) result }
    ensures untouched { request_of words.now ≡ None → store.new ≡ store.old }
{
    match form(words) {
        Some(form) => work(Tools { store, alloc }, &form),
        None => Err(Refusal::Usage),
    }
}

/// Does the work of the command that is asked for.
#[tactic(auto, unfolding(crate::specs::Reply::task, crate::specs::Request::request_with))]
fn work<'w, S: Store>(tools: Tools<'_, S>, form: &Form<'w>) -> Result<Work<'w>, Refusal<'w>>
    ensures told { IfSome (S.seen tools.entry.store.now).files (λ files.
        WorksOut result ((task (request_for (call_of form.now))).answer files)) }
    ensures uses { Uses (task (request_for (call_of form.now)))
        (S.seen tools.entry.store.now) (S.seen tools.exit.0.now) result }
{
    match form.command {
        Command::Walk => walk(tools, WalkNames::of(form)),
        Command::Asm => asm(tools, AsmNames::of(form)),
        Command::Dis => dis(tools, DisNames::of(form)),
        Command::Run => run(tools, RunNames::of(form)),
        Command::Tables => tables(tools, TablesNames::of(form)),
        Command::Check => check(tools, CheckNames::of(form)),
    }
}
