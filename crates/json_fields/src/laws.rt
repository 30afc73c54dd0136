//! Laws of reading and writing.
ghost use Rattle.std.specs.Prelude.{◌≡◌, ◌≤◌, ◌↔◌, ℕ, List, Some};
ghost use Rattle.goldilocks.specs.Text.{Writes};
ghost use Rattle.goldilocks.specs.declared.Felt.{Felt};
ghost use Rattle.serde_json.specs.Data.{Data, depth};
ghost use Rattle.serde_json.specs.Read.{max_depth};
ghost use Rattle.serde_json.specs.Written.{compact_text};
ghost use Rattle.json_fields.specs.FieldTexts.{felt_of_text, hex_text};
ghost use Rattle.json_fields.specs.Plain.{IsPlain};
ghost use Rattle.json_fields.specs.Values.{json_of};

/// A text is read as a number of the field exactly where it writes that number.
pub fn field_text_laws()
    ensures read { (text : List ℕ) (x : Felt) → (felt_of_text text ≡ Some x) ↔ Writes text x.number }
    ensures written { (x : Felt) → felt_of_text (hex_text x) ≡ Some x }
{}

/// The text of a plain value that nests at most 127 deep is read back as that value.
pub fn read_back_laws()
    ensures { (d : Data) → IsPlain d → depth d ≤ max_depth → json_of (compact_text d) ≡ Some d }
{}
