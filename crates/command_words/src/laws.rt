//! Laws of the definitions: a function that does nothing, and whose contract says what always holds.

ghost use Rattle.std.specs.Prelude.{◌≡◌, ◌≢◌, ℕ, ◌^◌, ◌<◌, ◌↔◌, true, false, List, [], ◌∷◌, ◌++◌, codes, Some, None, length};
ghost use Rattle.file_port.specs.Files.{Name};
ghost use Rattle.command_words.specs.Numbers.{IsNumber, number_in, worker_limit};
ghost use Rattle.command_words.specs.Forms.{CommandForm};
ghost use Rattle.command_words.specs.Calls.{Call, AskFor, asked, split_workers};

/// A word is found to be a number exactly where it is written so, within the bounds.
pub fn number_laws()
    ensures { (least most : ℕ) (word : Name) (number : ℕ) → most < 2 ^ 64 →
        (IsNumber least most word number ↔ (number_in least most word ≡ Some number)) }
{}

/// What the words ask for is found exactly where they keep the form of a command, and ask for it. Where there is one
/// word for each part of a form, all are arguments, for one worker. Two further words have to be `--workers` and a number
/// from 1 to 64, and only of a form that takes workers.
pub fn form_laws()
    ensures asks { (words : List Name) (call : Call) → (AskFor words call ↔ (asked words ≡ Some call)) }
    ensures no_option { (form : CommandForm) (arguments : List Name) → length arguments ≡ length form.parts →
        split_workers form arguments ≡ Some (arguments, 1) }
    ensures workers { (form : CommandForm) (arguments : List Name) (number : Name) (workers : ℕ) →
        length arguments ≡ length form.parts → form.takes_workers ≡ true → IsNumber 1 worker_limit number workers →
        split_workers form (arguments ++ codes "--workers" ∷ number ∷ []) ≡ Some (arguments, workers) }
    ensures no_number { (form : CommandForm) (arguments : List Name) (word : Name) →
        length arguments ≡ length form.parts → ((workers : ℕ) → IsNumber 1 worker_limit word workers → ⊥) →
        split_workers form (arguments ++ codes "--workers" ∷ word ∷ []) ≡ None }
    ensures other_option { (form : CommandForm) (arguments : List Name) (word last : Name) →
        length arguments ≡ length form.parts → word ≢ codes "--workers" →
        split_workers form (arguments ++ word ∷ last ∷ []) ≡ None }
    ensures takes_none { (form : CommandForm) (arguments : List Name) (word last : Name) →
        length arguments ≡ length form.parts → form.takes_workers ≡ false →
        split_workers form (arguments ++ word ∷ last ∷ []) ≡ None }
{}
