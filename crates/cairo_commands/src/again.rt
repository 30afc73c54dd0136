//! What one command answers on the files that another has written: laws of their answers.

ghost use Rattle.std.specs.Prelude.{◌≡◌, ◌↔◌, ◌-◌, List, [], ◌∷◌, length, Some, String};
ghost use Rattle.std.specs.declared.alloc.Global.{Global};
ghost use Rattle.file_port.specs.Files.{Name, Files};
ghost use Rattle.casm_statements.specs.declared.Item.{Item};
ghost use Rattle.assembler.specs.Assembling.{assembly_of};
ghost use Rattle.assembler.specs.Disassembly.{Disassembles};
ghost use Rattle.program_file.specs.Listing.{Listing};
ghost use Rattle.program_file.specs.Format.{written as program_bytes};
ghost use Rattle.command_frame.specs.Answer.{says, written};
ghost use Rattle.cairo_commands.specs.Programs.{HoldsProgram, listing_of, items_of};
ghost use Rattle.cairo_commands.specs.Commands.Asm.{Assembles, asm_answer, asm_line};
ghost use Rattle.cairo_commands.specs.Commands.Dis.{dis_answer, text_answer};
ghost use Rattle.cairo_commands.specs.Request.{Run};
ghost use Rattle.cairo_commands.specs.Reply.{reply, request_of};
ghost use Rattle.cairo_commands.specs.Commands.Walk.{walk_answer, steps_line};
ghost use Rattle.cairo_commands.specs.Commands.Run.{RunsToEnd, laid};
ghost use Rattle.cairo_commands.specs.Commands.Check.{check_answer, accepted_line};

use command_frame::Status;

/// The text that `dis` writes for a program is assembled by `asm` to the same words, places and builtins, and so to the
/// program file that is written for them.
///
/// The program file that `asm` writes for a text is shown by `dis` as its words, places and builtins. The labels of the
/// text are gone. The names may be any, equal ones too, for each command reads what the other wrote last. A program
/// disassembles into one list of items exactly, which is the one that is printed.
pub fn again_laws()
    ensures dis_then_asm { (program text copy : Name) (files : Files) (dis : HoldsProgram program files) →
        asm_answer text copy (written (dis_answer program text files).writes files) ≡ record {
          status = Status.Done;
          writes = (copy, program_bytes dis.value) ∷ [];
          line = asm_line (length dis.value.words);
        } }
    ensures asm_then_dis { (text program copy : Name) (files : Files) (asm : Assembles text files) →
        dis_answer program copy (written (asm_answer text program files).writes files)
        ≡ text_answer copy (listing_of (assembly_of asm.items)) }
    ensures one_list { (p : Listing) (items : List Item) →
        Disassembles p.words p.start p.end p.builtins.output p.builtins.range items ↔ (items ≡ items_of p) }
{}

/// After words that ask for `run`, where the run comes to its end: `walk` of the trace and the memory that it wrote ends
/// with `Done`, and so does `check` of the program with the public input and the tables. Each line tells the steps of the
/// run.
pub fn run_again_laws()
    ensures run_then_walk { (words : List (String Global)) (program hints trace memory public tables : Name) (files : Files) →
        request_of words ≡ Some (Run program hints trace memory public tables) → (run : RunsToEnd program hints files) →
        walk_answer trace memory (written (reply words files).writes files)
        ≡ says Status.Done (steps_line (length (laid run).states - 1)) }
    ensures run_then_check { (words : List (String Global)) (program hints trace memory public tables : Name) (files : Files) →
        request_of words ≡ Some (Run program hints trace memory public tables) → (run : RunsToEnd program hints files) →
        check_answer program public tables (written (reply words files).writes files)
        ≡ says Status.Done (accepted_line (length (laid run).states - 1)) }
{}
