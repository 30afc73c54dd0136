//! Public files and tables files as formats.

ghost use Rattle.std.specs.Prelude.{◌≡◌, ◌<◌, ◌^◌, refl, true};
ghost use Rattle.std.proofs.Common.{lit<};
ghost use Rattle.public_input.specs.Statement.{Statement, statement};
ghost use Rattle.public_input.specs.Valid.{IsValid};
ghost use Rattle.table_file.specs.Tables.{Contents, contents, AreValid};
ghost use Rattle.command_frame.specs.Parts.{IsReason};
ghost use Rattle.public_input.specs.Limits.{public_limit};
ghost use Rattle.table_file.specs.Limits.{tables_limit};
ghost use Rattle.cairo_commands.specs.TableInputs.{public_format, tables_format, tables_unread};

use command_frame::{FileFormat, Unread};
use public_input::{PUBLIC_LIMIT, Public, PublicFault};
use std::alloc::Global;
use table_file::{TABLES_LIMIT, TableFault, Tables};

/// Public files.
pub(crate) struct PublicFile;

impl FileFormat for PublicFile {
    type Value = Public;

    ghost Meaning = { Statement };

    ghost format = { public_format };

    ghost meaning = { statement };

    ghost keeps = { IsValid };

    const LIMIT: usize = PUBLIC_LIMIT;

    ghost LIMIT = { public_limit };

    const MAY_HAVE_TOO_MANY: bool = true;

    ghost MAY_HAVE_TOO_MANY = { true };

    fn read(alloc: Global, bytes: &[u8]) -> Result<Public, Unread> {
        match public_input::read(alloc, bytes) {
            Ok(public) => Ok(public),
            Err(PublicFault::TooMany) => Err(Unread::TooMuch),
            Err(PublicFault::Memory) => Err(Unread::OutOfMemory),
            Err(fault) => Err(Unread::of_fault(alloc, &fault)),
        }
    }

    ghost limit_is = { refl };

    ghost may_is = { refl };

    ghost low = { lit< tt };
}

/// Tables files.
pub(crate) struct TablesFile;

impl FileFormat for TablesFile {
    type Value = Tables;

    ghost Meaning = { Contents };

    ghost format = { tables_format };

    ghost meaning = { contents };

    ghost keeps = { λ tables. AreValid (contents tables) };

    const LIMIT: usize = TABLES_LIMIT;

    ghost LIMIT = { tables_limit };

    const MAY_HAVE_TOO_MANY: bool = true;

    ghost MAY_HAVE_TOO_MANY = { true };

    fn read(alloc: Global, bytes: &[u8]) -> Result<Tables, Unread> {
        match table_file::read(alloc, bytes) {
            Ok(tables) => Ok(tables),
            Err(fault) => Err(unread_tables(alloc, fault)),
        }
    }

    ghost limit_is = { refl };

    ghost may_is = { refl };

    ghost low = { lit< tt };
}

/// Why bytes are read as no tables.
fn unread_tables(alloc: Global, fault: TableFault) -> Unread
    ensures says { IsReason (tables_unread fault) result }
    ensures memory { fault ≡ TableFault.Memory → result ≡ Unread.OutOfMemory }
{
    match fault {
        TableFault::TooMany => Unread::TooMuch,
        TableFault::Memory => Unread::OutOfMemory,
        _ => Unread::of_fault(alloc, &fault),
    }
}
