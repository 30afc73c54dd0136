//! What the words of a call ask for.

ghost use Rattle.std.specs.Prelude.{◌≡◌, ◌∷◌, map, option_map};
ghost use Rattle.std.specs.Option.{option_copied};
ghost use Rattle.std.specs.List.{find};
ghost use Rattle.std.specs.Str.{bytes_eq};
ghost use Rattle.command_words.specs.Names.{texts};
ghost use Rattle.command_words.specs.Forms.{form_of, part_of, forms};
ghost use Rattle.command_words.specs.Calls as spec;

use crate::calls::Form;
use crate::names::are_names;
use crate::numbers::{WORKER_LIMIT, number_in};
use crate::table::{CommandForm, Part, forms};

/// What the words ask for, or `None` where they keep the form of no command.
pub fn form(words: &[String]) -> Option<Form<'_>>
    ensures { option_map spec.call_of result ≡ spec.asked (texts words.now) }
{
    form_in(forms(), words)
}

/// What the words ask for where these are the forms.
#[tactic(auto, unfolding(crate::specs::Calls::call_in))]
pub fn form_in<'w>(forms: &[CommandForm], words: &'w [String]) -> Option<Form<'w>>
    ensures { option_map spec.call_of result ≡ spec.call_in (map form_of forms.now) (texts words.now) }
{
    match words {
        [command, words @ ..] => form_of_command(forms, command.as_str(), words),
        [] => None,
    }
}

/// What this command with the words after it asks for.
fn form_of_command<'w>(
    forms: &[CommandForm],
    command: &str,
    words: &'w [String],
) -> Option<Form<'w>>
    ensures { option_map spec.call_of result ≡ spec.call_in (map form_of forms.now) (command.now ∷ texts words.now) }
{
    let form = form_named(forms, command)?;
    form_after(form, words)
}

/// The form whose word this is.
fn form_named<'f>(forms: &'f [CommandForm], word: &str) -> Option<&'f CommandForm>
    ensures { option_copied result ≡ find (λ form. bytes_eq form.word.now word.now) forms.now }
{
    forms.iter().find(|form| form.word == word)
}

/// What the words after a command ask for.
#[tactic(auto, unfolding(crate::specs::Calls::call_after))]
fn form_after<'w>(form: &CommandForm, words: &'w [String]) -> Option<Form<'w>>
    ensures { option_map spec.call_of result ≡ spec.call_after (form_of form.now) (texts words.now) }
{
    let (arguments, workers) = split_workers(form, words)?;
    if !are_names(form.parts, arguments) {
        return None;
    }
    let (first, second) = numbers_among(form.parts, arguments)?;
    Some(Form {
        command: form.command,
        arguments,
        workers,
        first,
        second,
    })
}

/// The words before those that name workers, and the number of workers.
#[tactic(auto, unfolding(crate::specs::Calls::split_workers))]
fn split_workers<'w>(form: &CommandForm, words: &'w [String]) -> Option<(&'w [String], u8)>
    ensures { option_map (λ split. (texts split.0.now, split.1)) result ≡ spec.split_workers (form_of form.now) (texts words.now) }
{
    let (arguments, last) = words.split_at_checked(form.parts.len())?;
    let workers = workers_named(form, last)?;
    Some((arguments, workers))
}

/// The number of workers that the words name which stand last.
fn workers_named(form: &CommandForm, last: &[String]) -> Option<u8>
    ensures { result ≡ spec.workers_named form.now.takes_workers (texts last.now) }
{
    match last {
        [] => Some(1),
        [option, number] if form.takes_workers && option.as_str() == "--workers" => {
            let workers = number_in(number.as_str(), 1, WORKER_LIMIT)?;
            Some(workers as u8)
        }
        _ => None,
    }
}

/// The first two numbers among the words. A number that is not there is 0.
fn numbers_among(parts: &[Part], words: &[String]) -> Option<(u64, u64)>
    ensures { option_map (λ found. (found.0, found.1)) result
        ≡ option_map spec.first_two (spec.numbers_among (map part_of parts.now) (texts words.now)) }
{
    let [part, parts @ ..] = parts else {
        return Some((0, 0));
    };
    let [word, words @ ..] = words else {
        return Some((0, 0));
    };
    match *part {
        Part::Number { least, most, .. } => {
            let number = number_in(word.as_str(), least, most)?;
            let (first, _) = numbers_among(parts, words)?;
            Some((number, first))
        }
        _ => numbers_among(parts, words),
    }
}
