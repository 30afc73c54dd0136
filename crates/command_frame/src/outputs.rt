//! Outputs are written one after another.

ghost use Rattle.command_frame.specs.Parts.{WritesOutputs, outputs_in};

use crate::ending::{Output, Refusal};
use file_port::{PortError, Store};
use std::alloc::Global;

/// Writes the outputs in their order. The first fault of the store ends it, and so does want of memory.
pub(crate) fn write_outputs<'w, S: Store>(
    alloc: Global,
    store: &mut S,
    outputs: &[Output<'w>],
) -> Result<(), Refusal<'w>>
    ensures { WritesOutputs (outputs_in outputs.now) (S.seen store.old) (S.seen store.new) result }
{
    match outputs {
        [] => Ok(()),
        [output, later @ ..] => match store.replace(alloc, output.name, &output.bytes) {
            Ok(()) => write_outputs(alloc, store, later),
            Err(PortError::Failed) => Err(Refusal::StoreFault { name: output.name }),
            Err(PortError::Memory) => Err(Refusal::OutOfMemory),
        },
    }
}
