//! Laws of what is built: a function that does nothing, and whose contract says what always holds.

ghost use Rattle.std.specs.Prelude.{◌≡◌, ◌↔◌, List, None, Ok, Err};
ghost use Rattle.goldilocks.specs.Felts.{numbers};
ghost use Rattle.goldilocks.specs.Cells.{memory_of};
ghost use Rattle.casm_word.specs.Transition.{Memory, Registers};
ghost use Rattle.program_file.specs.Listing.{Listing, IsProgram};
ghost use Rattle.public_input.specs.Statement.{Statement};
ghost use Rattle.public_input.specs.Valid.{KeepsLimits};
ghost use Rattle.table_file.specs.Tables.{Contents, AreValid};
ghost use Rattle.constraint_checker.specs.Constraints.{MeetsAll};
ghost use Rattle.constraint_checker.specs.declared.Verdict.TheVariants.{Accepted};
ghost use Rattle.constraint_checker.specs.Verdict.{verdict};
ghost use Rattle.relocation.specs.Relocated.{RelocatedRun};
ghost use Rattle.table_builder.specs.Columns.{greatest_of, least_of, run_small_values};
ghost use Rattle.table_builder.specs.Findings.{Finding, FoundFirst, findings, first_found};
ghost use Rattle.table_builder.specs.Building.{building};
ghost use Rattle.table_builder.specs.Public.{CanBeStated, IsRunOf, public_of};
ghost use Rattle.table_builder.specs.TablesOf.{HasFieldValues, AreInField, AreTablesOf};

/// What is built of a run in a memory of the field's numbers. Where tables are built, they are those of the run, and a run
/// has no others by this definition: tables of it are what is built. There are none exactly where something is found,
/// and the first such thing is reported. Of a program, and with a public input within its limits, tables are valid, and
/// they meet every constraint.
pub fn building_laws()
    ensures is { (program : Listing) (public : Statement) (m : Memory) (states : List Registers) (tables : Contents) →
        HasFieldValues m → AreInField states → KeepsLimits public →
        building program public m states ≡ Ok tables → AreTablesOf program public m states tables }
    ensures only { (program : Listing) (public : Statement) (m : Memory) (states : List Registers) (tables : Contents) →
        HasFieldValues m → AreInField states →
        AreTablesOf program public m states tables → building program public m states ≡ Ok tables }
    ensures none { (program : Listing) (public : Statement) (m : Memory) (states : List Registers) →
        HasFieldValues m → AreInField states → KeepsLimits public →
        (first_found (findings program public m states) ≡ None) ↔ ((tables : Contents) × AreTablesOf program public m states tables) }
    ensures first { (program : Listing) (public : Statement) (m : Memory) (states : List Registers) (found : Finding) →
        (building program public m states ≡ Err found) ↔ FoundFirst (findings program public m states) found }
    ensures valid { (program : Listing) (public : Statement) (m : Memory) (states : List Registers) (tables : Contents) →
        HasFieldValues m → AreInField states → IsProgram program → KeepsLimits public →
        building program public m states ≡ Ok tables → AreValid tables }
    ensures accepted { (program : Listing) (public : Statement) (m : Memory) (states : List Registers) (tables : Contents) →
        HasFieldValues m → AreInField states → IsProgram program → KeepsLimits public →
        building program public m states ≡ Ok tables → MeetsAll program public tables }
{}

/// What a run states of itself. A run of a program has a public input, which keeps its limits. These limits are the
/// least and the greatest of the run's offsets and limbs.
pub fn stated_laws()
    ensures can { (program : Listing) (run : RelocatedRun) → IsRunOf program run → CanBeStated run }
    ensures limits { (run : RelocatedRun) → AreInField run.states → CanBeStated run → KeepsLimits (public_of run) }
    ensures least { (run : RelocatedRun) →
        (public_of run).rc_min ≡ least_of (numbers (run_small_values (public_of run) (memory_of run.cells) run.states)) }
    ensures greatest { (run : RelocatedRun) →
        (public_of run).rc_max ≡ greatest_of (numbers (run_small_values (public_of run) (memory_of run.cells) run.states)) }
{}

/// Of a run of a program tables are built, with what the run states of itself as the public input, and they are
/// accepted.
pub fn stated_run_laws()
    ensures built { (program : Listing) (run : RelocatedRun) → IsProgram program → IsRunOf program run →
        (tables : Contents) × (building program (public_of run) (memory_of run.cells) run.states ≡ Ok tables)
        × (verdict program (public_of run) tables ≡ Accepted) }
{}
