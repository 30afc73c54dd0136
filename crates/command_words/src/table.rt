//! The forms of the commands: one table.

ghost use Rattle.std.specs.Prelude.{◌≡◌, map, IfOk, string_bytes};
ghost use Rattle.command_words.specs.Forms as spec;

use std::alloc::{AllocError, Global};

/// A command.
#[derive(Clone, Copy, Debug, PartialEq, Eq)]
pub enum Command {
    /// Is each step of a trace the transition of the machine in a memory?
    Walk,
    /// An assembly text is assembled to a program file.
    Asm,
    /// The words of a program file are shown as an assembly text.
    Dis,
    /// A program is run with its hints, and the run and its tables are written.
    Run,
    /// Tables are built of a run.
    Tables,
    /// Do tables meet every written constraint?
    Check,
}

/// What stands in one place after a command, with its name in a usage text.
#[derive(Clone, Copy, Debug)]
pub enum Part {
    /// The name of a file that is read.
    Input(&'static str),
    /// The name of a file that is written.
    Output(&'static str),
    /// A number within these bounds, in decimal digits without leading zeros.
    Number {
        /// Its name.
        shown: &'static str,
        /// The least that it may be.
        least: u64,
        /// The most that it may be.
        most: u64,
    },
}

/// The form of a command: its word, what follows it, and whether the number of workers may stand last.
#[derive(Clone, Copy, Debug)]
pub struct CommandForm {
    /// The command.
    pub command: Command,
    /// The first word of a call.
    pub word: &'static str,
    /// What each further word is.
    pub parts: &'static [Part],
    /// Whether the words `--workers N` may follow.
    pub takes_workers: bool,
}

impl Part {
    /// Its name in a usage text.
    fn shown(self) -> &'static str
        ensures { result.now ≡ spec.shown (spec.part_of self) }
    {
        match self {
            Part::Input(shown) | Part::Output(shown) | Part::Number { shown, .. } => shown,
        }
    }
}

impl CommandForm {
    /// How a usage text says that workers may be named.
    fn workers_shown(&self) -> &'static str
        ensures { result.now ≡ spec.workers_shown self.now.takes_workers }
    {
        if self.takes_workers {
            " [--workers N]"
        } else {
            ""
        }
    }

    /// How a call of the command is written, such as `check PROGRAM PUBLIC TABLES`.
    #[tactic(auto, unfolding(crate::specs::Forms::usage_text))]
    pub fn usage(&self, alloc: Global) -> Result<String, AllocError>
        ensures { IfOk result (λ text. string_bytes text ≡ spec.usage_text (spec.form_of self.now)) }
    {
        let mut text = String::from_str(alloc, self.word)?;
        for part in self.parts {
            text.push_str(" ")?;
            text.push_str(part.shown())?;
        }
        text.push_str(self.workers_shown())?;
        Ok(text)
    }
}

/// The forms of all commands.
const FORMS: &[CommandForm] = &[
    CommandForm {
        command: Command::Walk,
        word: "walk",
        parts: &[Part::Input("TRACE"), Part::Input("MEMORY")],
        takes_workers: false,
    },
    CommandForm {
        command: Command::Asm,
        word: "asm",
        parts: &[Part::Input("TEXT"), Part::Output("PROGRAM")],
        takes_workers: false,
    },
    CommandForm {
        command: Command::Dis,
        word: "dis",
        parts: &[Part::Input("PROGRAM"), Part::Output("TEXT")],
        takes_workers: false,
    },
    CommandForm {
        command: Command::Run,
        word: "run",
        parts: &[
            Part::Input("PROGRAM"),
            Part::Input("HINTS"),
            Part::Output("TRACE"),
            Part::Output("MEMORY"),
            Part::Output("PUBLIC"),
            Part::Output("TABLES"),
        ],
        takes_workers: false,
    },
    CommandForm {
        command: Command::Tables,
        word: "tables",
        parts: &[
            Part::Input("PROGRAM"),
            Part::Input("PUBLIC"),
            Part::Input("TRACE"),
            Part::Input("MEMORY"),
            Part::Output("TABLES"),
        ],
        takes_workers: false,
    },
    CommandForm {
        command: Command::Check,
        word: "check",
        parts: &[
            Part::Input("PROGRAM"),
            Part::Input("PUBLIC"),
            Part::Input("TABLES"),
        ],
        takes_workers: false,
    },
];

/// The forms of all commands, one a row.
#[tactic(auto, unfolding(crate::specs::Forms::forms))]
pub fn forms() -> &'static [CommandForm]
    ensures { map spec.form_of result.now ≡ spec.forms }
{
    FORMS
}
