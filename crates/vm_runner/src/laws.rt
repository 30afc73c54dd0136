//! Laws of the run: a function that does nothing, and whose contract says what always holds.
ghost use Rattle.std.specs.Prelude.{◌≡◌, ◌≢◌, Ok, All, drop, zip};
ghost use Rattle.segments.specs.Values.{place};
ghost use Rattle.program_file.specs.Listing.{Listing, IsProgram};
ghost use Rattle.hint_cells.specs.HintList.{HintList, AreHints};
ghost use Rattle.builtin_segments.specs.Rules.{rules_of};
ghost use Rattle.vm_runner.specs.Run.{Ran, run_of};
ghost use Rattle.vm_runner.specs.Completes.{Completes};

/// What a run that came to its end keeps, of a program with its hints. It ends at the first of its states in which the
/// program ends: in no state before the last is pc at the program's end.
pub fn completed_laws()
    ensures completes { (p : Listing) (h : HintList) (r : Ran) → IsProgram p → AreHints h →
        run_of (rules_of p.builtins) p h ≡ Ok r → Completes p h r }
    ensures first_end { (p : Listing) (h : HintList) (r : Ran) → run_of (rules_of p.builtins) p h ≡ Ok r →
        All (λ step. step.0.pc ≢ place 0 p.end) (zip r.states (drop 1 r.states)) }
{}
