//! A store and a sink in memory, which have no faults.

ghost use Rattle.std.specs.Prelude.{◌≡◌, ◌+◌, ◌^◌, ◌<◌, min, [], length, take, drop, Some, IfSome, IfOk, slice_get, refl};
ghost use Rattle.std.specs.Option.{option_map, option_copied};
ghost use Rattle.file_port.specs.Files.{files_of, named_bytes, file_at};
ghost use Rattle.file_port.specs.Seen.{ReadsNext};
ghost use Rattle.file_port.specs.Kept.{left_at, rest_at};

use crate::ports::{PortError, Sink, Store};
use std::alloc::Global;

/// Where a read stands: the index of its file, and how many of that file's bytes were handed out.
#[derive(Clone, Copy)]
pub struct ReadPosition {
    pub file: usize,
    pub offset: usize,
}

/// Files in memory. It tells all that it holds, and no call on it fails.
#[derive(Drop)]
pub struct SureStore {
    files: Vec<(String, Vec<u8>)>,
    reading: Option<ReadPosition>,
    given: u64,
    absent: u64,
}

impl SureStore {
    ghost use Rattle.file_port.specs.Kept.{fresh_store};

    /// A store of these files. Of equal names the last counts.
    pub fn new(files: Vec<(String, Vec<u8>)>) -> SureStore
        ensures seen { ⟦<SureStore as Store>⟧.seen result ≡ fresh_store (files_of (named_bytes files.items)) }
        ensures no_faults { (store : SureStore) → (⟦<SureStore as Store>⟧.seen store).faults ≡ 0 }
        ensures none_torn { (store : SureStore) → (⟦<SureStore as Store>⟧.seen store).torn ≡ 0 }
    {
        SureStore {
            files,
            reading: None,
            given: 0,
            absent: 0,
        }
    }

    /// The bytes of the file `name`, or `None` exactly where it is missing.
    pub fn file(&self, name: &str) -> Option<&[u8]>
        ensures { IfSome (⟦<SureStore as Store>⟧.seen self.now).files
            (λ files. option_copied result ≡ file_at files name.now) }
    {
        let index = last_named(&self.files, name)?;
        Some(self.files[index].1.as_slice())
    }

    /// Ends the read that was begun.
    pub(crate) fn end_read(&mut self)
        ensures { self.new ≡ record self.old { reading = None } }
    {
        self.reading = None;
    }
}

impl Store for SureStore {
    ghost use Rattle.file_port.specs.Kept.{seen_of};

    ghost seen = { λ s. seen_of s };

    fn begin_read(&mut self, _alloc: Global, name: &str) -> Result<bool, PortError> {
        self.reading = None;
        match last_named(&self.files, name) {
            Some(file) => {
                self.reading = Some(ReadPosition { file, offset: 0 });
                Ok(true)
            }
            None => {
                self.absent = self.absent.saturating_add(1);
                Ok(false)
            }
        }
    }

    fn read(&mut self, _alloc: Global, buf: &mut [u8]) -> Result<usize, PortError>
        ensures reads { ReadsNext buf.new (⟦<SureStore as Store>⟧.seen self.old)
            (⟦<SureStore as Store>⟧.seen self.new) result }
        // As many bytes as fit.
        ensures fits { IfOk result (λ n. IfSome (⟦<SureStore as Store>⟧.seen self.old).reading
            (λ left. n ≡ min (length left) (length buf.new))) }
    {
        let Some(place) = self.reading else {
            return Ok(0);
        };
        let count = copy_front(rest(&self.files, place), buf);
        self.reading = Some(ReadPosition {
            file: place.file,
            offset: place.offset + count,
        });
        self.given = self.given.saturating_add(count as u64);
        Ok(count)
    }

    fn replace(&mut self, alloc: Global, name: &str, bytes: &[u8]) -> Result<(), PortError> {
        self.reading = None;
        let name = String::from_str(alloc, name)?;
        let bytes = Vec::from_slice(alloc, bytes)?;
        // Of equal names the last counts.
        match self.files.push((name, bytes)) {
            Ok(()) => Ok(()),
            Err(_) => Err(PortError::Memory),
        }
    }

    ghost tells_both = { λ _ _. refl };
}

/// The index of the last file with this name.
fn last_named(files: &[(String, Vec<u8>)], name: &str) -> Option<usize>
    ensures held { file_at (files_of (named_bytes files.now)) name.now
        ≡ option_map (λ k. rest_at (slice_get (named_bytes files.now) k) 0) result }
    ensures within { IfSome result (λ k. k < length files.now) }
{
    let mut last = None;
    for (index, file) in files.iter().enumerate() {
        if file.0.as_str() == name {
            last = Some(index);
        }
    }
    last
}

/// The bytes that a read at this place has left.
fn rest(files: &[(String, Vec<u8>)], place: ReadPosition) -> &[u8]
    ensures left { result.now ≡ left_at (named_bytes files.now) (Some place) }
    ensures room { 0 < length result.now → place.offset + length result.now < 2 ^ 64 }
{
    match files.get(place.file) {
        Some(file) => after(file.1.as_slice(), place.offset),
        None => &[],
    }
}

/// The bytes past an offset, none where it is past the end.
fn after(bytes: &[u8], offset: usize) -> &[u8]
    ensures value { result.now ≡ drop offset bytes.now }
    ensures room { 0 < length result.now → offset + length result.now < 2 ^ 64 }
{
    if offset < bytes.len() {
        &bytes[offset..]
    } else {
        &[]
    }
}

/// Copies as much of `from` as fits to the front of `to`, and answers how many bytes.
fn copy_front(from: &[u8], to: &mut [u8]) -> usize
    ensures count { result ≡ min (length from.now) (length to.new) }
    ensures front { take result to.new ≡ take result from.now }
{
    let count = from.len().min(to.len());
    to[..count].copy_from_slice(&from[..count]);
    count
}

/// A sink in memory. It tells all that was written, and fails only where memory runs out.
#[derive(Drop)]
pub struct SureSink {
    written: Vec<u8>,
}

impl SureSink {
    /// A sink to which nothing was written. Its calls of `put` take their memory from `alloc`.
    pub fn new(alloc: Global) -> SureSink
        ensures seen { ⟦<SureSink as Sink>⟧.seen result ≡ record { written = Some []; faults = 0 } }
        ensures no_faults { (sink : SureSink) → (⟦<SureSink as Sink>⟧.seen sink).faults ≡ 0 }
    {
        SureSink {
            written: Vec::new(alloc),
        }
    }

    /// What was written so far.
    pub fn bytes(&self) -> &[u8]
        ensures { (⟦<SureSink as Sink>⟧.seen self.now).written ≡ Some result.now }
    {
        self.written.as_slice()
    }
}

impl Sink for SureSink {
    ghost use Rattle.std.specs.Prelude.{Some};

    ghost seen = { λ s. record { written = Some s.written.items; faults = 0 } };

    fn put(&mut self, _alloc: Global, bytes: &[u8]) -> Result<(), PortError> {
        match self.written.extend_from_slice(bytes) {
            Ok(()) => Ok(()),
            Err(_) => Err(PortError::Memory),
        }
    }
}
