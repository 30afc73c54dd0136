//! Laws of the verdict: functions that do nothing, and whose contracts say what always holds.

ghost use Rattle.std.specs.Prelude.{◌≡◌, ◌↔◌, All, length};
ghost use Rattle.program_file.specs.Listing.{Listing, IsProgram};
ghost use Rattle.public_input.specs.Statement.{Statement};
ghost use Rattle.public_input.specs.Valid.{KeepsLimits};
ghost use Rattle.table_file.specs.Tables.{Contents, AreValid};
ghost use Rattle.constraint_checker.specs.declared.Verdict.{Verdict};
ghost use Rattle.constraint_checker.specs.declared.Verdict.TheVariants.{Accepted};
ghost use Rattle.constraint_checker.specs.Constraints.{conditions, MeetsAll};
ghost use Rattle.constraint_checker.specs.Verdict.{verdict, IsVerdict};
ghost use Rattle.constraint_checker.specs.Acceptance.{DescribeRun};

/// The verdict is accepted where all conditions hold, and refused by the first that fails; no other verdict is. It is
/// accepted exactly where every constraint is met.
pub fn verdict_laws()
    ensures is { (program : Listing) (public : Statement) (tables : Contents) →
        IsVerdict (conditions program public tables) (verdict program public tables) }
    ensures only { (program : Listing) (public : Statement) (tables : Contents) (v : Verdict) →
        IsVerdict (conditions program public tables) v → v ≡ verdict program public tables }
    ensures accepted { (program : Listing) (public : Statement) (tables : Contents) →
        (verdict program public tables ≡ Accepted) ↔ MeetsAll program public tables }
{}

/// Valid tables that meet every constraint describe a run, where each row has its sixteen values of tilde, as a row of
/// the code does.
pub fn acceptance_laws()
    ensures describes { (program : Listing) (public : Statement) (tables : Contents) →
        IsProgram program → KeepsLimits public → AreValid tables → All (λ r. length r.tilde ≡ 16) tables.rows →
        MeetsAll program public tables → DescribeRun program public tables }
{}
