//! A text has one list of tokens, or one least place where none stands.
ghost use Rattle.std.specs.Prelude.{◌≡◌, ◌↔◌, ◌⊎◌, ℕ, List, Some, None};
ghost use Rattle.casm_tokens.specs.declared.fault.SyntaxKind.{SyntaxKind};
ghost use Rattle.casm_tokens.specs.declared.spans.Token.{Token};
ghost use Rattle.casm_tokens.specs.Marks.{Placed};
ghost use Rattle.casm_tokens.specs.Tokens.{CutsInto, StopsAt};
ghost use Rattle.casm_tokens.specs.Lines.{Fault, HasTokens, HasStop};
ghost use Rattle.casm_tokens.specs.Pieces.{scan};

/// Each text has tokens or a least place where none stands, never both. It has one list of tokens or one such place at
/// most. What the tokens of a line are is exactly what a scan from its left end finds.
pub fn token_laws()
    ensures either { (text : List ℕ) → ((xs : List Token) × HasTokens text xs) ⊎ ((f : Fault) × HasStop text f) }
    ensures not_both { (text : List ℕ) (xs : List Token) (f : Fault) → HasTokens text xs → HasStop text f → ⊥ }
    ensures one_list { (text : List ℕ) (xs ys : List Token) → HasTokens text xs → HasTokens text ys → xs ≡ ys }
    ensures one_stop { (text : List ℕ) (f g : Fault) → HasStop text f → HasStop text g → f ≡ g }
    ensures scan_cuts { (line : List ℕ) (tokens : List Placed) →
        CutsInto line tokens ↔ (scan line ≡ record { placed = tokens; stop = None }) }
    ensures scan_stops { (line : List ℕ) (at : ℕ) (k : SyntaxKind) →
        StopsAt line at k ↔ ((scan line).stop ≡ Some (at, k)) }
{}
