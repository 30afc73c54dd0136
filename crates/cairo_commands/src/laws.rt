//! Laws of the definitions: functions that do nothing, and whose contracts say what always holds.

ghost use Rattle.std.specs.Prelude.{◌≡◌, ◌≢◌, ◌≤◌, ℕ, false, Ok, Err, List, [], length, map, String};
ghost use Rattle.std.specs.declared.alloc.Global.{Global};
ghost use Rattle.std.specs.List.{Contains};
ghost use Rattle.file_port.specs.Files.{Name, Files};
ghost use Rattle.casm_word.specs.Transition.{Registers};
ghost use Rattle.casm_word.specs.Run.{LegalRun};
ghost use Rattle.program_file.specs.Listing.{Listing, IsProgram};
ghost use Rattle.hint_cells.specs.HintList.{HintList, AreHints};
ghost use Rattle.builtin_segments.specs.Rules.{rules_of};
ghost use Rattle.vm_runner.specs.Run.{Ran, run_of};
ghost use Rattle.constraint_checker.specs.declared.Verdict.TheVariants.{Accepted};
ghost use Rattle.constraint_checker.specs.Verdict.{verdict};
ghost use Rattle.table_builder.specs.Building.{building};
ghost use Rattle.table_builder.specs.Public.{CanBeStated, IsRunOf, public_of};
ghost use Rattle.trace_files.specs.TraceFile.{SpellsTrace};
ghost use Rattle.goldilocks.specs.declared.Pair.{Pair};
ghost use Rattle.goldilocks.specs.Cells.{memory_of};
ghost use Rattle.trace_files.specs.MemoryFile.{SpellsMemory};
ghost use Rattle.command_frame.specs.Status.{IsDecided};
ghost use Rattle.command_frame.specs.Answer.{outputs_of};
ghost use Rattle.command_frame.specs.Formats.{TooMuch};
ghost use Rattle.command_words.specs.Forms.{CommandForm, forms};
ghost use Rattle.command_words.specs.Calls.{Call, KeepsForm};
ghost use Rattle.cairo_commands.specs.Commands.Run.{laid_out, run_tables, HoldsGiven};
ghost use Rattle.cairo_commands.specs.RunFiles.{trace_format, memory_format};
ghost use Rattle.cairo_commands.specs.Reply.{reply, task_of, KeepsPlaces};

use command_frame::Status;

/// Each reply is decided by the words and the files. One that ends with `Done` writes the outputs of its command, in their
/// order, and no other file; another writes none. So a command that is refused leaves all files as they were.
pub fn reply_laws()
    ensures decided { (words : List (String Global)) (files : Files) → IsDecided (reply words files).status }
    ensures nothing { (words : List (String Global)) (files : Files) →
        (reply words files).status ≢ Status.Done → (reply words files).writes ≡ [] }
    ensures outputs { (words : List (String Global)) (files : Files) → (reply words files).status ≡ Status.Done →
        map (λ write. write.0) (reply words files).writes ≡ outputs_of (task_of words) }
{}

/// Bytes that spell states or cells are within the limit of their format, and bytes within it are never read as too many
/// entries. So where files are said to hold such bytes, no more is asked of them.
pub fn limit_laws()
    ensures trace { (bytes : List ℕ) (states : List Registers) → SpellsTrace bytes states → length bytes ≤ trace_format.limit }
    ensures memory { (bytes : List ℕ) (cells : List Pair) → SpellsMemory bytes cells → length bytes ≤ memory_format.limit }
    // A file within that limit has no more entries than it may have.
    ensures entries { (trace_format.may_have_too_many ≡ false) × (memory_format.may_have_too_many ≡ false) }
    ensures states { (bytes : List ℕ) → length bytes ≤ trace_format.limit → trace_format.reading bytes ≢ Err TooMuch }
    ensures cells { (bytes : List ℕ) → length bytes ≤ memory_format.limit → memory_format.reading bytes ≢ Err TooMuch }
{}

/// What words ask for that keep a form reads the inputs of the form, and writes its outputs.
pub fn position_laws()
    ensures { (form : CommandForm) (words : List Name) (call : Call) → Contains forms form → KeepsForm form words call →
        KeepsPlaces form call }
{}

/// What each run is that came to its end, once its segments are laid out.
pub fn completed_run_laws()
    // It is a run of the program, with all that tables ask of one, and so it has a public input. Its states are a legal
    // run in its memory.
    ensures of_program { (p : Listing) (h : HintList) (ran : Ran) → IsProgram p → AreHints h →
        run_of (rules_of p.builtins) p h ≡ Ok ran →
        IsRunOf p (laid_out p ran) }
    ensures stated { (p : Listing) (h : HintList) (ran : Ran) → IsProgram p → AreHints h →
        run_of (rules_of p.builtins) p h ≡ Ok ran →
        CanBeStated (laid_out p ran) }
    ensures legal { (p : Listing) (h : HintList) (ran : Ran) → IsProgram p → AreHints h →
        run_of (rules_of p.builtins) p h ≡ Ok ran →
        LegalRun (memory_of (laid_out p ran).cells) (laid_out p ran).states }

    // Its memory holds the program's words from address 1 on, the start stack and each hint.
    ensures given { (p : Listing) (h : HintList) (ran : Ran) → IsProgram p → AreHints h →
        run_of (rules_of p.builtins) p h ≡ Ok ran →
        HoldsGiven p h ran.memory.sizes (memory_of (laid_out p ran).cells) }

    // Nothing stands in the way of its tables, and the verdict on them is that they are accepted.
    ensures built { (p : Listing) (h : HintList) (ran : Ran) → IsProgram p → AreHints h →
        run_of (rules_of p.builtins) p h ≡ Ok ran →
        building p (public_of (laid_out p ran)) (memory_of (laid_out p ran).cells) (laid_out p ran).states
        ≡ Ok (run_tables p (laid_out p ran)) }
    ensures accepted { (p : Listing) (h : HintList) (ran : Ran) → IsProgram p → AreHints h →
        run_of (rules_of p.builtins) p h ≡ Ok ran →
        verdict p (public_of (laid_out p ran)) (run_tables p (laid_out p ran)) ≡ Accepted }
{}
