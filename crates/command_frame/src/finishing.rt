//! What comes after a command's work: its outputs are written, and its line is printed.

ghost use Rattle.std.specs.Prelude.{◌≡◌, Option, IfSome, IfErr};
ghost use Rattle.file_port.specs.Seen.{Seen};
ghost use Rattle.command_frame.specs.Answer.{Task, reply_to};
ghost use Rattle.command_frame.specs.Finishes.{Finishes};
ghost use Rattle.command_frame.specs.Parts.{WorksOut, Plans, WritesWork};

use crate::ending::{Refusal, Work};
use crate::outputs::write_outputs;
use crate::printing::print;
use crate::status::Status;
use file_port::{Sink, Store};
use std::alloc::Global;

/// Writes the outputs of what was worked out, prints its line and answers the status of the call. A refusal writes
/// nothing.
///
/// What is said holds of every task that this was planned for, over the store as it was before that.
pub fn finish<'w, S: Store, K: Sink>(
    alloc: Global,
    store: &mut S,
    sink: &mut K,
    planned: Result<Work<'w>, Refusal<'w>>,
) -> Status
    ensures finishes { (task : Option Task) (before : Seen) →
        Plans task before (S.seen store.old) planned.entry →
        IfSome before.files (λ files. WorksOut planned.entry (reply_to task files)) →
        Finishes task before (S.seen store.new) (K.seen sink.old) (K.seen sink.new) result }
    ensures untouched { IfErr planned.entry (λ _. store.new ≡ store.old) }
{
    let ending = write(alloc, store, planned);
    print(alloc, sink, ending)
}

/// Writes the outputs of what was worked out, and hands it on.
fn write<'w, S: Store>(
    alloc: Global,
    store: &mut S,
    planned: Result<Work<'w>, Refusal<'w>>,
) -> Result<Work<'w>, Refusal<'w>>
    ensures writes { WritesWork planned.entry (S.seen store.old) (S.seen store.new) result }
    ensures untouched { IfErr planned.entry (λ _. store.new ≡ store.old) }
{
    let work = planned?;
    write_outputs(alloc, store, &work.outputs)?;
    Ok(work)
}
