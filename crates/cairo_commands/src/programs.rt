//! Assembly texts and program files as formats, and each as the other.

ghost use Rattle.std.specs.Prelude.{◌≡◌, ◌≤◌, ◌<◌, ◌^◌, IfOk, length, refl, true};
ghost use Rattle.std.proofs.Common.{lit<};
ghost use Rattle.casm_tokens.specs.Limits.{text_limit};
ghost use Rattle.casm_text.specs.Canonical.{printed};
ghost use Rattle.assembler.specs.Assembling.{Assembly, seen_assembly};
ghost use Rattle.program_file.specs.Format.{written};
ghost use Rattle.program_file.specs.Limits.{program_limit};
ghost use Rattle.program_file.specs.Listing.{Listing, IsProgram, listing};
ghost use Rattle.command_frame.specs.Parts.{ReadsAs, IsReason};
ghost use Rattle.cairo_commands.specs.Programs as spec;

use assembler::{AsmFault, Assembled, assemble, disassemble};
use casm_text::{Item, ParseFault, parse, print};
use casm_tokens::TEXT_LIMIT;
use command_frame::{FileFormat, Unread};
use program_file::{Builtins, PROGRAM_LIMIT, Program, ProgramFault};
use std::alloc::{AllocError, Global};

/// Assembly texts.
pub(crate) struct AssemblyText;

impl FileFormat for AssemblyText {
    type Value = Assembled;

    ghost Meaning = { Assembly };

    ghost format = { spec.text_format };

    ghost meaning = { seen_assembly };

    ghost keeps = { λ a. IsProgram (spec.listing_of (seen_assembly a)) };

    const LIMIT: usize = TEXT_LIMIT;

    ghost LIMIT = { text_limit };

    const MAY_HAVE_TOO_MANY: bool = true;

    ghost MAY_HAVE_TOO_MANY = { true };

    fn read(alloc: Global, bytes: &[u8]) -> Result<Assembled, Unread> {
        let items = items_of(alloc, bytes)?;
        assembly_of(alloc, &items)
    }

    ghost limit_is = { refl };

    ghost may_is = { refl };

    ghost low = { lit< tt };
}

/// The items that a text is read as.
fn items_of(alloc: Global, text: &[u8]) -> Result<Vec<Item>, Unread>
    requires { length text.now ≤ text_limit }
    ensures { ReadsAs (λ items. items.items) (spec.items_read text.now) result }
{
    match parse(alloc, text) {
        Ok(items) => Ok(items),
        Err(fault) => Err(unread_text(alloc, fault)),
    }
}

/// What items are assembled to.
fn assembly_of(alloc: Global, items: &[Item]) -> Result<Assembled, Unread>
    ensures reads { ReadsAs seen_assembly (spec.assembly_read items.now) result }
    ensures bounds { IfOk result (λ a. IsProgram (spec.listing_of (seen_assembly a))) }
{
    match assemble(alloc, items) {
        Ok(assembled) => Ok(assembled),
        Err(fault) => Err(unread_items(alloc, fault)),
    }
}

/// Why a text is read as no items.
fn unread_text(alloc: Global, fault: ParseFault) -> Unread
    ensures says { IsReason (spec.parse_unread fault) result }
    ensures memory { fault ≡ ParseFault.Memory → result ≡ Unread.OutOfMemory }
{
    match fault {
        ParseFault::Memory => Unread::OutOfMemory,
        ParseFault::Syntax { .. } => Unread::of_fault(alloc, &fault),
    }
}

/// Why items are assembled to no program.
fn unread_items(alloc: Global, fault: AsmFault) -> Unread
    ensures says { IsReason (spec.assembly_unread fault) result }
    ensures memory { fault ≡ AsmFault.Memory → result ≡ Unread.OutOfMemory }
{
    match fault {
        AsmFault::TooLong => Unread::TooMuch,
        AsmFault::Memory => Unread::OutOfMemory,
        fault => Unread::of_fault(alloc, &fault),
    }
}

/// Program files.
pub(crate) struct ProgramFile;

impl FileFormat for ProgramFile {
    type Value = Program;

    ghost Meaning = { Listing };

    ghost format = { spec.program_format };

    ghost meaning = { listing };

    ghost keeps = { λ program. Unit {0} };

    const LIMIT: usize = PROGRAM_LIMIT;

    ghost LIMIT = { program_limit };

    const MAY_HAVE_TOO_MANY: bool = true;

    ghost MAY_HAVE_TOO_MANY = { true };

    fn read(alloc: Global, bytes: &[u8]) -> Result<Program, Unread> {
        match program_file::read(alloc, bytes) {
            Ok(program) => Ok(program),
            Err(ProgramFault::TooLong) => Err(Unread::TooMuch),
            Err(ProgramFault::Memory) => Err(Unread::OutOfMemory),
            Err(fault) => Err(Unread::of_fault(alloc, &fault)),
        }
    }

    ghost limit_is = { refl };

    ghost may_is = { refl };

    ghost low = { lit< tt };
}

/// The program file of an assembled text.
#[tactic(auto, unfolding(assembler::specs::Assembling::seen_assembly))]
pub(crate) fn program_bytes(alloc: Global, assembled: Assembled) -> Result<Vec<u8>, AllocError>
    requires { IsProgram (spec.listing_of (seen_assembly assembled)) }
    ensures { IfOk result (λ bytes. bytes.items ≡ written (spec.listing_of (seen_assembly assembled))) }
{
    let builtins = Builtins {
        output: assembled.output,
        range: assembled.range,
    };
    let program = Program::new(assembled.words, assembled.start, assembled.end, builtins).unwrap();
    program_file::write(alloc, &program)
}

/// The assembly text that a program is shown as.
pub(crate) fn text_bytes(alloc: Global, program: &Program) -> Result<Vec<u8>, AllocError>
    ensures { IfOk result (λ bytes. bytes.items ≡ printed (spec.items_of (listing program.now))) }
{
    let items = shown_items(alloc, program)?;
    print(alloc, &items)
}

/// The items that a program is shown as.
fn shown_items(alloc: Global, program: &Program) -> Result<Vec<Item>, AllocError>
    ensures { IfOk result (λ items. items.items ≡ spec.items_of (listing program.now)) }
{
    let Builtins { output, range } = program.builtins();
    disassemble(
        alloc,
        program.words(),
        program.start(),
        program.end(),
        output,
        range,
    )
}
