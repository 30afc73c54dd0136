//! The names of files among the words of a call.

ghost use Rattle.std.specs.Prelude.{◌≡◌, map};
ghost use Rattle.command_words.specs.Names as rules;
ghost use Rattle.command_words.specs.Forms.{part_of};
ghost use Rattle.command_words.specs.Calls.{inputs_among, outputs_among};

use crate::table::Part;

/// Whether the names of files keep the rules of all commands: none is empty, and no output has the name of an input or of
/// another output.
pub(crate) fn are_names(parts: &[Part], words: &[String]) -> bool
    ensures { result ≡ rules.are_names (inputs_among (map part_of parts.now) (rules.texts words.now))
        (outputs_among (map part_of parts.now) (rules.texts words.now)) }
{
    !is_input(parts, words, "")
        && !is_output(parts, words, "")
        && stand_apart(parts, words, parts, words)
}

/// Whether none of the later words that stand for outputs is the name of an input, or of another output among them.
fn stand_apart(
    parts: &[Part],
    words: &[String],
    later_parts: &[Part],
    later_words: &[String],
) -> bool
    ensures { result ≡ rules.stand_apart (inputs_among (map part_of parts.now) (rules.texts words.now))
        (outputs_among (map part_of later_parts.now) (rules.texts later_words.now)) }
{
    match (later_parts, later_words) {
        ([Part::Output(_), more_parts @ ..], [output, more_words @ ..]) => {
            let output = output.as_str();
            !is_input(parts, words, output)
                && !is_output(more_parts, more_words, output)
                && stand_apart(parts, words, more_parts, more_words)
        }
        ([_, more_parts @ ..], [_, more_words @ ..]) => {
            stand_apart(parts, words, more_parts, more_words)
        }
        _ => true,
    }
}

/// Whether a word that stands for an input is this name.
fn is_input(parts: &[Part], words: &[String], name: &str) -> bool
    ensures { result ≡ rules.is_among (inputs_among (map part_of parts.now) (rules.texts words.now)) name.now }
{
    match (parts, words) {
        ([Part::Input(_), parts @ ..], [word, words @ ..]) => {
            word.as_str() == name || is_input(parts, words, name)
        }
        ([_, parts @ ..], [_, words @ ..]) => is_input(parts, words, name),
        _ => false,
    }
}

/// Whether a word that stands for an output is this name.
fn is_output(parts: &[Part], words: &[String], name: &str) -> bool
    ensures { result ≡ rules.is_among (outputs_among (map part_of parts.now) (rules.texts words.now)) name.now }
{
    match (parts, words) {
        ([Part::Output(_), parts @ ..], [word, words @ ..]) => {
            word.as_str() == name || is_output(parts, words, name)
        }
        ([_, parts @ ..], [_, words @ ..]) => is_output(parts, words, name),
        _ => false,
    }
}
