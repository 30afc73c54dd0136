//! The statement that words begin with.
#![tactic(auto)]

ghost use Rattle.std.specs.Prelude.{◌≡◌, [], ◌++◌, true, is_some, MatchOption};
ghost use Rattle.std.specs.Option.{option_to_list};
ghost use Rattle.assembler.specs.StatementWords.{BeginsWith, BeginsWithNone};

use casm_text::{Stmt, of_word};
use casm_word::{Word, decode};
use goldilocks::Felt;

/// The statement whose words stand first, and the words after them.
pub(crate) fn first_statement(words: &[Felt]) -> Option<(Stmt, &[Felt])>
    ensures { MatchOption result (BeginsWithNone words.now) (λ p. BeginsWith words.now p.0 p.1.now) }
{
    let (first, rest) = words.split_first()?;
    let word = decode(first.number).ok()?;
    let (immediate, others) = split_immediate(&word, rest)?;
    of_word(&word, immediate).map(|stmt| (stmt, others))
}

/// The immediate of an instruction word, if it has one, and the words after it; `None` where it is missing.
fn split_immediate<'a>(word: &Word, rest: &'a [Felt]) -> Option<(Option<Felt>, &'a [Felt])>
    ensures { MatchOption result
        ((word.now.flags.op1_imm ≡ true) × (rest.now ≡ []))
        (λ p. (is_some p.0 ≡ word.now.flags.op1_imm) × (rest.now ≡ option_to_list p.0 ++ p.1.now)) }
{
    if !word.flags.op1_imm {
        return Some((None, rest));
    }
    rest.split_first()
        .map(|(value, others)| (Some(*value), others))
}
