//! Program files: the words of a program with the places where it starts and ends, as JSON.
#![tactic(auto)]

ghost use Rattle.std.specs.Prelude.{◌<◌, ◌≤◌, ◌^◌, length};
ghost use Rattle.casm_word.specs.Length.{program_word_limit};

mod faults;
mod laws;
mod reading;
mod writing;

pub use casm_word::PROGRAM_WORD_LIMIT;
pub use faults::{ProgramFault, ProgramKey};
use goldilocks::Felt;
pub use laws::{bound_laws, reading_laws, written_laws};
pub use reading::read;
pub use writing::write;

/// The most bytes that a program file may have, 2^24.
pub const PROGRAM_LIMIT: usize = 16_777_216;

/// The builtins that a program uses.
#[derive(Clone, Copy, Debug, PartialEq, Eq)]
pub struct Builtins {
    /// The output, whose cells are public.
    pub output: bool,
    /// The range check, whose cells lie below 2^48.
    pub range: bool,
}

/// A program: 1 to [`PROGRAM_WORD_LIMIT`] words, the place of its first instruction, the place where its run ends, and its
/// builtins.
///
/// Places count words from 0, and both lie below the number of words; the type keeps these bounds.
#[derive(Debug, Drop)]
pub struct Program {
    words: Vec<Felt>,
    start: u32,
    end: u32,
    builtins: Builtins,
    pub ghost few_words: { length words.items ≤ program_word_limit },
    pub ghost start_inside: { start < length words.items },
    pub ghost end_inside: { end < length words.items },
}

impl Program {
    ghost use Rattle.std.specs.Prelude.{◌≡◌, ◌↔◌, IsSome, IfSome};
    ghost use Rattle.program_file.specs.Listing.{IsProgram, listing};

    /// The program of these words that starts and ends at these places, or `None` exactly where a bound is broken.
    pub fn new(words: Vec<Felt>, start: u32, end: u32, builtins: Builtins) -> Option<Program>
        ensures program { IfSome result (λ p. listing p
            ≡ record { words = words.items; start = start; end = end; builtins = builtins }) }
        ensures some { IsSome result
            ↔ IsProgram (record { words = words.items; start = start; end = end; builtins = builtins }) }
    {
        let count = words.len();
        if count > PROGRAM_WORD_LIMIT || start as usize >= count || end as usize >= count {
            return None;
        }
        Some(Program {
            words,
            start,
            end,
            builtins,
        })
    }

    /// Its words, 1 to [`PROGRAM_WORD_LIMIT`] of them.
    pub fn words(&self) -> &[Felt]
        ensures { result.now ≡ (listing self.now).words }
    {
        self.words.as_slice()
    }

    /// The place of its first instruction.
    pub fn start(&self) -> u32
        ensures { result ≡ (listing self.now).start }
    {
        self.start
    }

    /// The place where its run ends.
    pub fn end(&self) -> u32
        ensures { result ≡ (listing self.now).end }
    {
        self.end
    }

    /// The builtins that it uses.
    pub fn builtins(&self) -> Builtins
        ensures { result ≡ (listing self.now).builtins }
    {
        self.builtins
    }
}
