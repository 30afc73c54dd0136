//! The verdict on tables.

ghost use Rattle.std.specs.Prelude.{◌≡◌, ◌<◌, ◌↔◌, length, IfOk, IfErr};
ghost use Rattle.casm_word.specs.Transition.{registers};
ghost use Rattle.program_file.specs.Listing.{listing};
ghost use Rattle.public_input.specs.Statement.{statement};
ghost use Rattle.public_input.specs.Valid.{IsValid};
ghost use Rattle.range_columns.specs.Limbs.{limb_limit};
ghost use Rattle.table_file.specs.Tables.{contents, AreValid};
ghost use Rattle.access_lists.specs.Accesses.{access_parts};
ghost use Rattle.constraint_checker.specs.Lists.{accessing, accesses, table_small_values};
ghost use Rattle.constraint_checker.specs.Constraints.{first_state, rows_with_next, start_conditions, row_conditions, end_conditions};
ghost use Rattle.constraint_checker.specs.Constraints.{limb_conditions, run_conditions, memory_conditions, small_conditions, MeetsAll};
ghost use Rattle.constraint_checker.specs.Verdict.{verdict_on, verdict};
ghost use Rattle.constraint_checker.specs.Acceptance.{DescribeRun};
ghost use Rattle.constraint_checker.specs.Parts.{RunsAnywhere};

use crate::{Constraint, Verdict};
use access_lists::{Accesses, SmallValues};
use casm_word::State;
use cpu_rows::first_fault;
use memory_columns::memory_fault;
use program_file::Program;
use public_input::Public;
use range_columns::{LIMB_LIMIT, limb_fault, range_fault};
use std::alloc::{AllocError, Global};
use table_file::Tables;

/// The verdict on tables: the first written constraint that fails, with the row that it is reported at, or
/// [`Verdict::Accepted`] where none fails.
///
/// First come P1 to P5, C1 to C39 by row and then by number, P6 and P7, and V1 by row. Then come M1 and M2 by row and
/// then by number, M3, Q1, Q2 by row, Q3 and Q4. Where the tables are accepted, they describe a run of the program with
/// this public input: `DescribeRun` in `specs/` says what that means. Public input and tables have to be valid.
pub fn check(
    alloc: Global,
    program: &Program,
    public: &Public,
    tables: &Tables,
) -> Result<Verdict, AllocError>
    requires valid_public { IsValid public.now }
    requires valid_tables { AreValid (contents tables.now) }
    ensures verdict { IfOk result (λ v. v ≡ verdict (listing program.now) (statement public.now) (contents tables.now)) }
    ensures accepted { IfOk result (λ v. (v ≡ Verdict.Accepted) ↔ MeetsAll (listing program.now) (statement public.now) (contents tables.now)) }

    // Accepted tables describe a run.
    ensures describes { IfOk result (λ v. v ≡ Verdict.Accepted → DescribeRun (listing program.now) (statement public.now) (contents tables.now)) }

    // Want of memory comes only where P1 to P7, C1 to C39 and V1 hold.
    ensures memory { IfErr result (λ _. verdict_on (run_conditions (listing program.now) (statement public.now) (contents tables.now)) ≡ Verdict.Accepted) }
{
    let run = verdict_on_run(program, public, tables);
    if !run.is_accepted() {
        return Ok(run);
    }
    let memory = verdict_on_memory(alloc, program, public, tables)?;
    if !memory.is_accepted() {
        return Ok(memory);
    }
    verdict_on_small_values(alloc, public, tables)
}

/// P1 to P7, C1 to C39 and V1.
fn verdict_on_run(program: &Program, public: &Public, tables: &Tables) -> Verdict
    ensures verdict { result ≡ verdict_on (run_conditions (listing program.now) (statement public.now) (contents tables.now)) }
    ensures runs { result ≡ Verdict.Accepted → RunsAnywhere (contents tables.now) }
{
    let start = verdict_on_start(program, public, tables);
    if !start.is_accepted() {
        return start;
    }
    let rows = verdict_on_rows(tables);
    if !rows.is_accepted() {
        return rows;
    }
    let end = verdict_on_end(program, public, tables);
    if !end.is_accepted() {
        return end;
    }
    verdict_on_limbs(tables)
}

/// P1 to P5: the counts and the first state.
fn verdict_on_start(program: &Program, public: &Public, tables: &Tables) -> Verdict
    ensures { result ≡ verdict_on (start_conditions (listing program.now) (statement public.now) (contents tables.now)) }
{
    let first = first_state(tables);
    if tables.rows.len() != public.steps as usize {
        refused(Constraint::P(1), 0)
    } else if tables.range.len() != public.range_count as usize {
        refused(Constraint::P(2), 0)
    } else if first.pc.number != 1 + u64::from(program.start()) {
        refused(Constraint::P(3), 0)
    } else if first.ap.number != public.ap_first.number {
        refused(Constraint::P(4), 0)
    } else if first.fp.number != public.ap_first.number {
        refused(Constraint::P(5), 0)
    } else {
        Verdict::Accepted
    }
}

/// The state of the first row; without rows, the last state.
fn first_state(tables: &Tables) -> State
    ensures { registers result ≡ first_state (contents tables.now) }
{
    match tables.rows.first() {
        Some(row) => row.state(),
        None => tables.last,
    }
}

/// C1 to C39 of each row.
fn verdict_on_rows(tables: &Tables) -> Verdict
    ensures verdict { result ≡ verdict_on (row_conditions 0 (rows_with_next (contents tables.now))) }
    ensures runs { result ≡ Verdict.Accepted → RunsAnywhere (contents tables.now) }
{
    match first_fault(&tables.rows, tables.last) {
        Some((row, number)) => refused(Constraint::C(number), row as u64),
        None => Verdict::Accepted,
    }
}

/// P6 and P7: the last state.
fn verdict_on_end(program: &Program, public: &Public, tables: &Tables) -> Verdict
    ensures { result ≡ verdict_on (end_conditions (listing program.now) (statement public.now) (contents tables.now)) }
{
    let steps = tables.rows.len() as u64;
    if tables.last.pc.number != 1 + u64::from(program.end()) {
        refused(Constraint::P(6), steps)
    } else if tables.last.ap.number != public.ap_last.number {
        refused(Constraint::P(7), steps)
    } else {
        Verdict::Accepted
    }
}

/// V1 of each range row, for cells of three limbs.
fn verdict_on_limbs(tables: &Tables) -> Verdict
    ensures { result ≡ verdict_on (limb_conditions limb_limit 0 (contents tables.now).range) }
{
    let rows = tables.range.as_slice();
    match limb_fault(rows, LIMB_LIMIT) {
        Some(row) => refused(Constraint::V(1), row as u64),
        None => Verdict::Accepted,
    }
}

/// M1 to M3: the accesses are to one memory.
fn verdict_on_memory(
    alloc: Global,
    program: &Program,
    public: &Public,
    tables: &Tables,
) -> Result<Verdict, AllocError>
    requires valid_public { IsValid public.now }
    requires valid_tables { AreValid (contents tables.now) }
    ensures { IfOk result (λ v. v ≡ verdict_on (memory_conditions
        (accesses (listing program.now) (statement public.now) (contents tables.now)) (contents tables.now).pairs)) }
{
    let accesses = accessing(program, public, tables).to_vec(alloc)?;
    match memory_fault(alloc, accesses, &tables.memory.sorted)? {
        Some(fault) => Ok(refused(Constraint::M(fault.number), fault.row)),
        None => Ok(Verdict::Accepted),
    }
}

/// What accesses the memory.
fn accessing<'a>(program: &'a Program, public: &'a Public, tables: &'a Tables) -> Accesses<'a>
    ensures { access_parts result ≡ accessing (listing program.now) (statement public.now) (contents tables.now) }
{
    Accesses {
        rows: &tables.rows,
        range_begin: public.range_begin,
        range_rows: &tables.range,
        words: program.words(),
        public_cells: &public.cells,
        fillers: &tables.memory.fill,
    }
}

/// Q1 to Q4: the offsets and limbs lie in their range.
fn verdict_on_small_values(
    alloc: Global,
    public: &Public,
    tables: &Tables,
) -> Result<Verdict, AllocError>
    requires valid_public { IsValid public.now }
    requires valid_tables { AreValid (contents tables.now) }
    requires some_row { 0 < length (contents tables.now).rows }
    ensures { IfOk result (λ v. v ≡ verdict_on (small_conditions
        (table_small_values (contents tables.now)) (contents tables.now).sorted_range public.now.rc_min public.now.rc_max)) }
{
    let small = SmallValues {
        rows: &tables.rows,
        range_rows: &tables.range,
        fillers: &tables.small.fill,
    };
    let values = small.to_vec(alloc)?;
    let sorted = tables.small.sorted.as_slice();
    match range_fault(alloc, values, sorted, public.rc_min, public.rc_max)? {
        Some(fault) => Ok(refused(Constraint::Q(fault.number), fault.row)),
        None => Ok(Verdict::Accepted),
    }
}

/// The refusal by this constraint at this row.
fn refused(constraint: Constraint, row: u64) -> Verdict
    ensures { result ≡ Verdict.Refused constraint row }
{
    Verdict::Refused { constraint, row }
}
