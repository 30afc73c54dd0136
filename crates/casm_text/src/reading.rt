//! What is read of a text, as a function: the contract of a function that does nothing.
ghost use Rattle.std.specs.Prelude.{◌≡◌, ◌↔◌, ℕ, List, Ok, Err};
ghost use Rattle.casm_statements.specs.declared.Item.{Item};
ghost use Rattle.casm_tokens.specs.Lines.{Fault};
ghost use Rattle.casm_text.specs.Meaning.{Reads, IsTextFault};
ghost use Rattle.casm_text.specs.TextReading.{text_reading};

/// What is read of a text is the items that its lines mean, or its fault.
pub fn reading_laws()
    ensures items { (text : List ℕ) (items : List Item) → Reads text items ↔ (text_reading text ≡ Ok items) }
    ensures fault { (text : List ℕ) (f : Fault) → IsTextFault text f ↔ (text_reading text ≡ Err f) }
{}
