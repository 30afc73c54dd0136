//! The bytes of an input are taken piece by piece, up to its limit.

ghost use Rattle.std.specs.Prelude.{◌≡◌, ◌+◌, ◌<◌, ◌≤◌, ◌^◌, ℕ, List, [], ◌∷◌, ◌++◌, Some, Err, IfOk, OnOk, vec_len};
ghost use Rattle.std.specs.Option.{option_map};
ghost use Rattle.file_port.specs.Files.{file_at};
ghost use Rattle.command_frame.specs.Evidence.{piece};
ghost use Rattle.command_frame.specs.Parts.{TakesInput, ReadsInputs, input_of, IsMissing};

use crate::ending::Refusal;
use file_port::{PortError, Store};
use std::alloc::{AllocError, Global};

/// How many bytes are asked for at a time.
const PIECE: usize = 65536;

/// A file to read.
#[derive(Clone, Copy)]
pub struct Input<'w> {
    /// Its position among the words.
    pub position: usize,
    /// Its name.
    pub name: &'w str,
    /// The most bytes that it may have.
    pub limit: usize,
    /// Whether it may have too many entries within this limit.
    pub may_have_too_many: bool,
}

/// What takes the bytes of a file, piece by piece.
///
/// The impl says by `took` what a taker is that has taken bytes, and what it keeps of the taker that it was before them.
/// [`read_pieces`] promises that of the whole file. A taker that finds a fault has to keep it and go on to take, since a
/// fault of the store and the limit of the file stand before it.
pub trait Taker: Drop {
    // The second taker is the first one after it has taken these bytes.
    ghost took: { Self → List ℕ → Self → Type 0 };

    /// Takes the next bytes.
    fn take(&mut self, piece: &[u8]) -> Result<(), AllocError>
        ensures { OnOk result ((new : Self) (bytes : List ℕ) → took new bytes self.old → took new (bytes ++ piece.now) self.new) };
}

impl Taker for Vec<u8> {
    ghost took = { λ new bytes list. list.items ≡ bytes };

    fn take(&mut self, piece: &[u8]) -> Result<(), AllocError> {
        self.extend_from_slice(piece)
    }
}

/// Gives the bytes of an input to a taker that has taken none, and gives it back. A missing name, more bytes than the
/// limit, a fault of the store and want of memory are its refusals.
pub fn read_pieces<'w, S: Store, T: Taker>(
    alloc: Global,
    store: &mut S,
    input: Input<'w>,
    taker: T,
) -> Result<T, Refusal<'w>>
    requires low { input.limit < 2 ^ 32 }
    requires new { T.took taker [] taker }
    ensures takes { TakesInput (T.took taker) (input_of input.entry)
        (option_map (λ files. file_at files input.entry.name.now) (S.seen store.old).files) result }
    ensures uses { ReadsInputs (input_of input.entry ∷ []) (S.seen store.old) (S.seen store.new) result }
{
    let Input { position, name, .. } = input;
    match store.begin_read(alloc, name) {
        Ok(true) => read_rest(alloc, store, input, taker),
        Ok(false) => Err(Refusal::Missing { position }),
        Err(PortError::Failed) => Err(Refusal::StoreFault { name }),
        Err(PortError::Memory) => Err(Refusal::OutOfMemory),
    }
}

/// Gives what is left of the file that was begun.
fn read_rest<'w, S: Store, T: Taker>(
    alloc: Global,
    store: &mut S,
    input: Input<'w>,
    mut taker: T,
) -> Result<T, Refusal<'w>>
    requires low { input.limit < 2 ^ 32 }
    requires new { T.took taker [] taker }
    ensures takes { TakesInput (T.took taker) (input_of input.entry) (option_map Some (S.seen store.old).reading) result }
    ensures uses { ReadsInputs (input_of input.entry ∷ []) (S.seen store.old) (S.seen store.new) result }
    ensures present { IsMissing result → ⊥ }
{
    let Input {
        position,
        name,
        limit,
        ..
    } = input;
    let mut piece = empty_piece(alloc)?;
    let mut taken = 0;
    'pieces: while taken <= limit {
        match store.read(alloc, piece.as_mut_slice()) {
            Ok(0) => return Ok(taker),
            Ok(count) => {
                taker.take(&piece[..count])?;
                taken += count;
            }
            Err(PortError::Failed) => return Err(Refusal::StoreFault { name }),
            Err(PortError::Memory) => return Err(Refusal::OutOfMemory),
        }
    }
    Err(Refusal::OverLimit { position })
}

/// A buffer for one piece.
fn empty_piece(alloc: Global) -> Result<Vec<u8>, AllocError>
    ensures { IfOk result (λ bytes. vec_len bytes ≡ piece) }
{
    vec![in alloc; 0u8; PIECE]
}
