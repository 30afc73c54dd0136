//! `asm TEXT PROGRAM`: an assembly text is assembled to a program file.

ghost use Rattle.std.specs.Prelude.{◌≡◌, IfSome, IfOk, string_bytes};
ghost use Rattle.command_words.specs.Calls.{call_of, word_at};
ghost use Rattle.cairo_commands.specs.Request.{Asm, request_with};
ghost use Rattle.cairo_commands.specs.Commands.Asm as spec;
ghost use Rattle.command_frame.specs.Parts.{WorksOut, Uses};

use crate::programs::{AssemblyText, program_bytes};
use crate::tools::Tools;
use command_frame::{Refusal, Work, read_input};
use command_words::{Command, Form};
use file_port::Store;
use std::alloc::{AllocError, Global};

// The positions of the names among the words.
const TEXT: usize = 1;

const PROGRAM: usize = 2;

/// The names of the files of a call.
#[derive(Clone, Copy)]
pub(crate) struct AsmNames<'w> {
    text: &'w str,
    program: &'w str,
}

impl<'w> AsmNames<'w> {
    /// The names that the words give.
    #[tactic(auto, unfolding(crate::specs::Request::request_with))]
    pub(crate) fn of(form: &Form<'w>) -> Self
        ensures { Asm result.text.now result.program.now ≡ request_with Command.Asm (word_at (call_of form.now)) }
    {
        AsmNames {
            text: form.word(TEXT),
            program: form.word(PROGRAM),
        }
    }
}

/// Reads the text, and works out its program file.
#[tactic(auto, unfolding(crate::specs::Commands::Asm::asm_answer, assembler::specs::Assembling::seen_assembly))]
pub(crate) fn asm<'w, S: Store>(
    tools: Tools<'_, S>,
    names: AsmNames<'w>,
) -> Result<Work<'w>, Refusal<'w>>
    ensures told { IfSome (S.seen tools.entry.store.now).files
        (λ files. WorksOut result (spec.asm_answer names.entry.text.now names.entry.program.now files)) }
    ensures uses { Uses (spec.asm_task names.entry.text.now names.entry.program.now)
        (S.seen tools.entry.store.now) (S.seen tools.exit.0.now) result }
{
    let Tools { store, alloc } = tools;
    let assembled = read_input::<AssemblyText, S>(alloc, store, TEXT, names.text)?;
    let line = words_line(alloc, assembled.words.len())?;
    let bytes = program_bytes(alloc, assembled)?;
    Ok(Work::of_output(alloc, names.program, bytes, line)?)
}

fn words_line(alloc: Global, words: usize) -> Result<String, AllocError>
    ensures { IfOk result (λ text. string_bytes text ≡ spec.asm_line words) }
{
    format!(in alloc; "asm: {words} words\n")
}
