//! What always holds of lines and their faults: the contract of a function that does nothing.
ghost use Rattle.std.specs.Prelude.{◌≡◌, ◌⊎◌, ℕ, List};
ghost use Rattle.casm_statements.specs.declared.Body.{Body};
ghost use Rattle.casm_tokens.specs.declared.fault.SyntaxKind.{SyntaxKind};
ghost use Rattle.casm_tokens.specs.Marks.{Mark};
ghost use Rattle.casm_grammar.specs.Language.{Derives, Kept, HasFault};
ghost use Rattle.casm_grammar.specs.Grammar.{whole_line};

/// Tokens are a line or have a first fault, never both, and they have one meaning or one first fault.
pub fn line_laws()
    ensures either { (ts : List Mark) → ((v : List Body) × Derives Kept whole_line v ts)
        ⊎ ((at : ℕ) × (k : SyntaxKind) × HasFault whole_line ts at k) }
    ensures not_both { (ts : List Mark) (at : ℕ) (k : SyntaxKind) (v : List Body) →
        HasFault whole_line ts at k → Derives Kept whole_line v ts → ⊥ }
    ensures one_meaning { (ts : List Mark) (v w : List Body) →
        Derives Kept whole_line v ts → Derives Kept whole_line w ts → v ≡ w }
    ensures one_fault { (ts : List Mark) (i j : ℕ) (k m : SyntaxKind) →
        HasFault whole_line ts i k → HasFault whole_line ts j m → (i ≡ j) × (k ≡ m) }
{}
