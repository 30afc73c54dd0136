//! What always holds of texts and their meanings, and that what is printed is read back.
ghost use Rattle.std.specs.Prelude.{◌≡◌, ◌≤◌, ◌↔◌, ◌⊎◌, ℕ, List, length, IfOk, IfSome, IsSome};
ghost use Rattle.casm_statements.specs.declared.Body.{Body};
ghost use Rattle.casm_tokens.specs.Lines.{Fault};
ghost use Rattle.casm_tokens.specs.Limits.{text_limit};
ghost use Rattle.casm_text.specs.Canonical.{printed};
ghost use Rattle.casm_text.specs.Meaning.{bodies, MeansBodies, IsTextFault};

use crate::parser::parse;
use crate::printer::print;
use casm_statements::Item;
use casm_tokens::{ParseFault, TEXT_LIMIT};
use std::alloc::{AllocError, Global};

/// Each text means something or has a fault, never both, and it has one meaning or one fault.
pub fn text_laws()
    ensures either { (text : List ℕ) → ((meant : List Body) × MeansBodies text meant) ⊎ ((f : Fault) × IsTextFault text f) }
    ensures not_both { (text : List ℕ) (f : Fault) (meant : List Body) → IsTextFault text f → MeansBodies text meant → ⊥ }
    ensures one_meaning { (text : List ℕ) (v w : List Body) → MeansBodies text v → MeansBodies text w → v ≡ w }
    ensures one_fault { (text : List ℕ) (f g : Fault) → IsTextFault text f → IsTextFault text g → f ≡ g }
{}

/// The items that `parse` reads of what `print` writes of these, or `None` exactly where that has more than 2^24 bytes.
///
/// Its contract is the law that `parse(print(items))` has the same bodies. It gives what the one answers of what the
/// other writes, and that `parse` refuses it is proved never to come.
pub fn read_back(alloc: Global, items: &[Item]) -> Result<Option<Vec<Item>>, AllocError>
    ensures some { IfOk result (λ found. IsSome found ↔ (length (printed items.now) ≤ text_limit)) }
    ensures same { IfOk result (λ found. IfSome found (λ again. bodies again.items ≡ bodies items.now)) }
{
    let text = print(alloc, items)?;
    if text.len() > TEXT_LIMIT {
        return Ok(None);
    }
    match parse(alloc, &text) {
        Ok(again) => Ok(Some(again)),
        Err(ParseFault::Memory) => Err(AllocError),
        Err(ParseFault::Syntax { .. }) => unreachable!(),
    }
}
