//! Laws of the definitions: functions that do nothing, and whose contracts say what always holds.

ghost use Rattle.std.specs.Prelude.{◌≡◌, ◌≢◌, ℕ, ◌+◌, ◌<◌, ◌≤◌, ◌↔◌, List, Some, None, length, slice_get, slice_index_or};
ghost use Rattle.casm_word.specs.Transition.{Memory, Registers, Outcome, next, outcome, Next};
ghost use Rattle.casm_word.specs.Run.{LegalRun, first_refused};

/// What a step comes to goes on exactly where the transition function has a value, and to that value.
pub fn outcome_laws()
    ensures goes_on { (m : Memory) (r t : Registers) → (outcome m r ≡ Next t) ↔ (next m r ≡ Some t) }
{}

/// A legal run is one by its steps at each index, and where it begins and how long it is determine it.
pub fn legal_run_laws()
    ensures step { (m : Memory) (states : List Registers) (d : Registers) (k : ℕ) →
        LegalRun m states → k + 1 < length states →
        next m (slice_index_or states k d) ≡ Some (slice_index_or states (k + 1) d) }
    ensures from_steps { (m : Memory) (states : List Registers) (d : Registers) → 2 ≤ length states →
        ((k : ℕ) → k + 1 < length states →
        next m (slice_index_or states k d) ≡ Some (slice_index_or states (k + 1) d)) →
        LegalRun m states }
    ensures determined { (m : Memory) (xs ys : List Registers) → LegalRun m xs → LegalRun m ys →
        length xs ≡ length ys → slice_get xs 0 ≡ slice_get ys 0 → xs ≡ ys }
{}

/// No step is refused exactly where the states are a legal run. A step that is refused is the first that is not the
/// transition, with what the transition comes to there.
pub fn refused_step_laws()
    ensures none { (m : Memory) (states : List Registers) → 2 ≤ length states →
        ((first_refused m states ≡ None) ↔ LegalRun m states) }
    ensures place { (m : Memory) (states : List Registers) (k : ℕ) (o : Outcome) →
        first_refused m states ≡ Some (k, o) → k + 1 < length states }
    ensures found { (m : Memory) (states : List Registers) (k : ℕ) (o : Outcome) (d : Registers) →
        first_refused m states ≡ Some (k, o) →
        (o ≡ outcome m (slice_index_or states k d))
        × (next m (slice_index_or states k d) ≢ Some (slice_index_or states (k + 1) d)) }
    ensures first { (m : Memory) (states : List Registers) (k : ℕ) (o : Outcome) (d : Registers) →
        first_refused m states ≡ Some (k, o) → (j : ℕ) → j < k →
        next m (slice_index_or states j d) ≡ Some (slice_index_or states (j + 1) d) }
{}
