//! Hint files as a format.

ghost use Rattle.std.specs.Prelude.{◌<◌, ◌^◌, refl, true};
ghost use Rattle.std.proofs.Common.{lit<};
ghost use Rattle.hint_cells.specs.HintList.{HintList, AreHints, hint_list};
ghost use Rattle.hint_cells.specs.Limits.{hints_limit};
ghost use Rattle.cairo_commands.specs.HintFiles.{hints_format};

use command_frame::{FileFormat, Unread};
use hint_cells::{HINTS_LIMIT, HintFault, Hints};
use std::alloc::Global;

/// Hint files.
pub(crate) struct HintsFile;

impl FileFormat for HintsFile {
    type Value = Hints;

    ghost Meaning = { HintList };

    ghost format = { hints_format };

    ghost meaning = { hint_list };

    ghost keeps = { λ hints. AreHints (hint_list hints) };

    const LIMIT: usize = HINTS_LIMIT;

    ghost LIMIT = { hints_limit };

    const MAY_HAVE_TOO_MANY: bool = true;

    ghost MAY_HAVE_TOO_MANY = { true };

    fn read(alloc: Global, bytes: &[u8]) -> Result<Hints, Unread> {
        match hint_cells::read(alloc, bytes) {
            Ok(hints) => Ok(hints),
            Err(HintFault::TooMany) => Err(Unread::TooMuch),
            Err(HintFault::Memory) => Err(Unread::OutOfMemory),
            Err(fault) => Err(Unread::of_fault(alloc, &fault)),
        }
    }

    ghost limit_is = { refl };

    ghost may_is = { refl };

    ghost low = { lit< tt };
}
