//! What words ask for.

ghost use Rattle.std.specs.Prelude.{◌≡◌, ◌-◌, ◌∷◌, []};
ghost use Rattle.command_words.specs.Calls.{call_of, word_at};

use crate::table::Command;

/// What words ask for: a command, and the words that follow it.
#[derive(Clone, Copy, Debug)]
pub struct Form<'w> {
    /// The command.
    pub command: Command,
    /// One word for each part of the command's form, without those that name workers.
    pub arguments: &'w [String],
    /// How many workers are named; 1 where none are.
    pub workers: u8,
    /// The first number among the words, or 0.
    pub first: u64,
    /// The second number among the words, or 0.
    pub second: u64,
}

impl<'w> Form<'w> {
    /// The word at this position among those that follow the command, which have the positions from 1 on.
    pub fn word(&self, position: usize) -> &'w str
        ensures { result.now ≡ word_at (call_of self.now) position }
    {
        match self.arguments.get(position.saturating_sub(1)) {
            Some(word) => word.as_str(),
            None => "",
        }
    }
}
