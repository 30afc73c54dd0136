//! What the definitions say together: each law is the contract of a function that does nothing.
#![tactic(auto)]

ghost use Rattle.std.specs.Prelude.{◌≡◌, ℕ, ◌+◌, Bool, List, [], ◌∷◌, ◌++◌, map, length, None, Some};
ghost use Rattle.std.specs.List.{flat_map, AllByRecursion};
ghost use Rattle.goldilocks.specs.declared.Felt.{Felt};
ghost use Rattle.casm_statements.specs.declared.Stmt.{Stmt};
ghost use Rattle.casm_statements.specs.declared.Body.{Body};
ghost use Rattle.casm_statements.specs.declared.Item.{Item};
ghost use Rattle.casm_text.specs.Meaning.{bodies};
ghost use Rattle.assembler.specs.StatementWords.{statement_words, HasOffsets, BeginsWith};
ghost use Rattle.assembler.specs.Shown.{Shown};
ghost use Rattle.assembler.specs.ShownBodies.{shown_bodies};
ghost use Rattle.assembler.specs.Assembly.{word_count, labels_of, value_in, label_named, distance_to, body_words, words_of};
ghost use Rattle.assembler.specs.Faults.{HasNoFault};
ghost use Rattle.assembler.specs.Disassembly.{AssemblesTo};

/// Each list of words begins with one statement at most. It is shown as one list of bodies, which a function gives, and
/// as no other. The words of statements are shown as these statements.
pub fn shown_laws()
    ensures begins { (words : List Felt) (s t : Stmt) (xs ys : List Felt) →
        BeginsWith words s xs → BeginsWith words t ys → (s ≡ t) × (xs ≡ ys) }
    ensures one { (words : List Felt) (xs ys : List Body) → Shown words xs → Shown words ys → xs ≡ ys }
    ensures each { (words : List Felt) → Shown words (shown_bodies words) }
    ensures statements { (stmts : List Stmt) → AllByRecursion HasOffsets stmts →
        Shown (flat_map statement_words stmts) (map Body.Stmt stmts) }
{}

/// A label has the number of the words before it as its value, where it isn't given before. The words of a body stand
/// after those of the bodies before it.
pub fn place_laws()
    ensures label { (before after : List Body) (n : List ℕ) → value_in (labels_of before) n ≡ None →
        value_in (labels_of (before ++ Body.Label n ∷ after)) n ≡ Some (word_count before) }
    ensures words { (before after : List Body) (b : Body) → let all = before ++ b ∷ after in
        (front back : List Felt)
        × (words_of all ≡ front ++ (body_words (distance_to (labels_of all) (word_count before) (label_named b)) b ++ back))
        × (length front ≡ word_count before) }
    ensures count { (bs : List Body) → length (words_of bs) ≡ word_count bs }
{}

/// The lines of items don't matter: where one list of items can be assembled, each other one with the same bodies can be,
/// to the same program.
pub fn line_laws()
    ensures accepted { (xs ys : List Item) → bodies xs ≡ bodies ys → HasNoFault xs → HasNoFault ys }
    ensures assembled { (words : List Felt) (start end : ℕ) (output range : Bool) (xs ys : List Item) →
        bodies xs ≡ bodies ys → AssemblesTo words start end output range xs →
        AssemblesTo words start end output range ys }
{}
