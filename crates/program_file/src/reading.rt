//! Reading a program file.

ghost use Rattle.std.specs.Prelude.{◌≡◌, ◌≢◌, ◌≤◌, [], Ok, Err, IfOk, IfErr, map, length};
ghost use Rattle.serde_json.specs.View.{view};
ghost use Rattle.serde_json.specs.Find.{as_str};
ghost use Rattle.casm_word.specs.Length.{program_word_limit};
ghost use Rattle.json_fields.specs.Faults.{in_turn};
ghost use Rattle.program_file.specs.Listing.{Listing, listing};
ghost use Rattle.program_file.specs.Format.{SpellsProgram};
ghost use Rattle.program_file.specs.Reading.{reading, word_in, is_same_text};
ghost use Rattle.program_file.specs.Reading as lines;
ghost use Rattle.program_file.specs.declared.faults.ProgramFault.{ProgramFault};

use crate::{Builtins, PROGRAM_WORD_LIMIT, Program, ProgramFault, ProgramKey};
use goldilocks::Felt;
use json_fields::{felt_in, list_at, read_json, text_at, whole_at};
use serde_json::Value;
use std::alloc::{AllocError, Global};

/// The order of the field, as a file has it.
pub(crate) const PRIME_TEXT: &str = "0xffffffff00000001";

/// The program that the bytes of a file are.
///
/// Else it is the first fault: [`ProgramFault::Json`], then those of `prime`, `data`, `start`, `end` and `builtins`, then
/// [`ProgramFault::Label`] of the start and of the end. Of equal keys the last one counts, and other keys are passed over.
pub fn read(alloc: Global, bytes: &[u8]) -> Result<Program, ProgramFault>
    ensures program { IfOk result (λ p. reading bytes.now ≡ Ok (listing p)) }
    ensures fault { IfErr result (λ f. f ≢ ProgramFault.Memory → reading bytes.now ≡ Err f) }

    // So the bytes are that program, and where there is a fault they are none.
    ensures spells { IfOk result (λ p. SpellsProgram bytes.now (listing p)) }
    ensures spells_nothing { IfErr result (λ f. f ≢ ProgramFault.Memory → (p : Listing) → ¬ SpellsProgram bytes.now p) }
{
    let Some(top) = read_json(alloc, bytes)? else {
        return Err(ProgramFault::Json);
    };
    read_value(alloc, &top)
}

/// The program that a JSON value is, or its first fault.
#[tactic(auto, unfolding(crate::specs::Reading::program_in))]
fn read_value(alloc: Global, top: &Value) -> Result<Program, ProgramFault>
    ensures program { IfOk result (λ p. lines.program_in (view top.now) ≡ Ok (listing p)) }
    ensures fault { IfErr result (λ f. f ≢ ProgramFault.Memory → lines.program_in (view top.now) ≡ Err f) }
{
    read_prime(top)?;
    let words = read_words(alloc, top)?;
    let start = read_whole(top, ProgramKey::Start)?;
    let end = read_whole(top, ProgramKey::End)?;
    let builtins = read_builtins(top)?;
    bounded(words, start, end, builtins)
}

/// Whether the order of the field is there.
#[tactic(auto, unfolding(crate::specs::Reading::prime_in))]
fn read_prime(top: &Value) -> Result<(), ProgramFault>
    ensures { result ≡ lines.prime_in (view top.now) }
{
    let Some(prime) = text_at(top, ProgramKey::Prime.name()) else {
        return Err(ProgramFault::Key(ProgramKey::Prime));
    };
    if prime == PRIME_TEXT {
        Ok(())
    } else {
        Err(ProgramFault::Prime)
    }
}

/// The whole number under a key.
#[tactic(auto, unfolding(crate::specs::Reading::whole_under))]
fn read_whole(top: &Value, key: ProgramKey) -> Result<u64, ProgramFault>
    ensures { result ≡ lines.whole_under key (view top.now) }
{
    whole_at(top, key.name()).ok_or(ProgramFault::Key(key))
}

/// The words, at most [`PROGRAM_WORD_LIMIT`] of them.
#[tactic(auto, unfolding(crate::specs::Reading::words_in))]
fn read_words(alloc: Global, top: &Value) -> Result<Vec<Felt>, ProgramFault>
    ensures words { IfOk result (λ words. lines.words_in (view top.now) ≡ Ok words.items) }
    ensures few { IfOk result (λ words. length words.items ≤ program_word_limit) }
    ensures fault { IfErr result (λ f. f ≢ ProgramFault.Memory → lines.words_in (view top.now) ≡ Err f) }
{
    let Some(texts) = list_at(top, ProgramKey::Words.name()) else {
        return Err(ProgramFault::Key(ProgramKey::Words));
    };
    if texts.len() > PROGRAM_WORD_LIMIT {
        return Err(ProgramFault::TooLong);
    }
    read_entries(alloc, texts)
}

/// The words of these entries.
fn read_entries(alloc: Global, texts: &[Value]) -> Result<Vec<Felt>, ProgramFault>
    requires { length texts.now ≤ program_word_limit }
    ensures words { IfOk result (λ words. in_turn word_in [] (map view texts.now) ≡ Ok words.items) }
    ensures count { IfOk result (λ words. length words.items ≡ length texts.now) }
    ensures fault { IfErr result (λ f. f ≢ ProgramFault.Memory → in_turn word_in [] (map view texts.now) ≡ Err f) }
{
    let mut words = Vec::with_capacity(alloc, texts.len())?;
    for (index, text) in texts.iter().enumerate() {
        let Some(word) = felt_in(text) else {
            return Err(ProgramFault::Felt(index as u32));
        };
        words.push(word).map_err(AllocError::from)?;
    }
    Ok(words)
}

/// The builtins.
#[tactic(auto, unfolding(crate::specs::Reading::builtins_under))]
fn read_builtins(top: &Value) -> Result<Builtins, ProgramFault>
    ensures { result ≡ lines.builtins_under (view top.now) }
{
    let Some(names) = list_at(top, ProgramKey::Builtins.name()) else {
        return Err(ProgramFault::Key(ProgramKey::Builtins));
    };
    builtins_in(names).ok_or(ProgramFault::Builtin)
}

/// The builtins whose names these are, in their order.
#[tactic(auto, unfolding(crate::specs::Reading::builtins_in))]
fn builtins_in(names: &[Value]) -> Option<Builtins>
    ensures { result ≡ lines.builtins_in (map view names.now) }
{
    let (output, range) = match names {
        [] => (false, false),
        [only] if is_text(only, "output") => (true, false),
        [only] if is_text(only, "range_check") => (false, true),
        [first, second] if is_text(first, "output") && is_text(second, "range_check") => {
            (true, true)
        }
        _ => return None,
    };
    Some(Builtins { output, range })
}

/// Whether the value is this text.
fn is_text(value: &Value, text: &str) -> bool
    ensures { result ≡ is_same_text text.now (as_str (view value.now)) }
{
    match value.as_str() {
        Some(found) => found == text,
        None => false,
    }
}

/// The program, where it starts and ends at words of its own.
#[tactic(auto, unfolding(crate::specs::Reading::bounded))]
fn bounded(
    words: Vec<Felt>,
    start: u64,
    end: u64,
    builtins: Builtins,
) -> Result<Program, ProgramFault>
    requires { length words.items ≤ program_word_limit }
    ensures program { IfOk result (λ p. lines.bounded words.items start end builtins ≡ Ok (listing p)) }
    ensures fault { IfErr result (λ f. lines.bounded words.items start end builtins ≡ Err f) }
{
    let count = words.len() as u64;
    if start >= count {
        return Err(ProgramFault::Label(ProgramKey::Start));
    }
    if end >= count {
        return Err(ProgramFault::Label(ProgramKey::End));
    }
    Ok(Program {
        words,
        start: start as u32,
        end: end as u32,
        builtins,
    })
}
