//! `dis PROGRAM TEXT`: the words of a program file are shown as an assembly text.

ghost use Rattle.std.specs.Prelude.{◌≡◌, IfSome, IfOk, string_bytes};
ghost use Rattle.command_words.specs.Calls.{call_of, word_at};
ghost use Rattle.cairo_commands.specs.Request.{Dis, request_with};
ghost use Rattle.cairo_commands.specs.Commands.Dis as spec;
ghost use Rattle.command_frame.specs.Parts.{WorksOut, Uses};

use crate::programs::{ProgramFile, text_bytes};
use crate::tools::Tools;
use command_frame::{Refusal, Work, read_input};
use command_words::{Command, Form};
use file_port::Store;
use std::alloc::{AllocError, Global};

// The positions of the names among the words.
const PROGRAM: usize = 1;

const TEXT: usize = 2;

/// The names of the files of a call.
#[derive(Clone, Copy)]
pub(crate) struct DisNames<'w> {
    program: &'w str,
    text: &'w str,
}

impl<'w> DisNames<'w> {
    /// The names that the words give.
    #[tactic(auto, unfolding(crate::specs::Request::request_with))]
    pub(crate) fn of(form: &Form<'w>) -> Self
        ensures { Dis result.program.now result.text.now ≡ request_with Command.Dis (word_at (call_of form.now)) }
    {
        DisNames {
            program: form.word(PROGRAM),
            text: form.word(TEXT),
        }
    }
}

/// Reads the program, and works out the text that shows it.
#[tactic(auto, unfolding(crate::specs::Commands::Dis::dis_answer))]
pub(crate) fn dis<'w, S: Store>(
    tools: Tools<'_, S>,
    names: DisNames<'w>,
) -> Result<Work<'w>, Refusal<'w>>
    ensures told { IfSome (S.seen tools.entry.store.now).files
        (λ files. WorksOut result (spec.dis_answer names.entry.program.now names.entry.text.now files)) }
    ensures uses { Uses (spec.dis_task names.entry.program.now names.entry.text.now)
        (S.seen tools.entry.store.now) (S.seen tools.exit.0.now) result }
{
    let Tools { store, alloc } = tools;
    let listed = read_input::<ProgramFile, S>(alloc, store, PROGRAM, names.program)?;
    let bytes = text_bytes(alloc, &listed)?;
    let line = words_line(alloc, listed.words().len())?;
    Ok(Work::of_output(alloc, names.text, bytes, line)?)
}

fn words_line(alloc: Global, words: usize) -> Result<String, AllocError>
    ensures { IfOk result (λ text. string_bytes text ≡ spec.dis_line words) }
{
    format!(in alloc; "dis: {words} words\n")
}
