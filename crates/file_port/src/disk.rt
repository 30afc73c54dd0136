//! The real files and the standard output: the trusted edge, which tells no content.

ghost use Rattle.std.specs.Prelude.{◌≡◌, ◌≢◌, ◌<◌, Some, None, IsSome, IsNone, IfSome, IfOk, IfErr, OnErr, Ok, Err, take, length, true, false};
ghost use Rattle.std.specs.Counts.{IsPrefixLen};
ghost use Rattle.std.specs.IoError.{error_kind};
ghost use Rattle.std.specs.Io.KnownBytes.{Consumes, IsAtEnd};
ghost use Rattle.file_port.specs.Files.{Name};
ghost use Rattle.file_port.specs.Disk.{open_file, left_of};
ghost use Rattle.file_port.specs.Ports.{OnFound, OnMissing};
ghost use Rattle.file_port.specs.Seen.{BeginsRead, ReadsNext, Replaces};

use crate::ports::{PortError, Sink, Store};
use crate::replacing::replace_whole;
use std::alloc::Global;
use std::fs;
use std::io::{self, ErrorKind, Read};
use std::rt::Files;

/// How often a read is tried that a signal interrupts before it has moved a byte.
const TRIES: u32 = 1000;

/// The files of the system, by their paths.
#[derive(Drop)]
pub struct DiskStore<R: Files + Clone + Drop> {
    rt: R,
    file: Option<R::File>,
    given: u64,
    faults: u64,
    absent: u64,
    torn: u64,
}

impl<R: Files + Clone + Drop> DiskStore<R> {
    /// A store over the files of the runtime `rt`, which it keeps.
    pub fn new(rt: R) -> DiskStore<R>
        ensures seen { ⟦<DiskStore<R> as Store>⟧.seen result
            ≡ record { files = None; reading = None; given = 0; faults = 0; absent = 0; torn = 0 } }
        ensures none_open { IsNone (open_file result) }
    {
        DiskStore {
            rt,
            file: None,
            given: 0,
            faults: 0,
            absent: 0,
            torn: 0,
        }
    }
}

impl<R: Files + Clone + Drop> DiskStore<R> {
    /// Keeps the file that was opened, from its first byte on, or counts why there is none.
    fn begun(&mut self, opened: io::Result<R::File>) -> Result<bool, PortError>
        ensures begins { (name : Name) → BeginsRead name (⟦<DiskStore<R> as Store>⟧.seen self.old)
            (⟦<DiskStore<R> as Store>⟧.seen self.new) result }
        ensures found { IfOk opened (λ file. (result ≡ Ok true) × (open_file self.new ≡ Some file)) }
        ensures missing { IfErr opened (λ error. error_kind error ≡ ErrorKind.NotFound → result ≡ Ok false) }
        ensures failed { IfErr opened (λ error. error_kind error ≢ ErrorKind.NotFound → result ≡ Err PortError.Failed) }
        ensures none_open { IfErr opened (λ _. IsNone (open_file self.new)) }
    {
        self.file = None;
        match opening(opened) {
            Ok(Some(file)) => {
                self.file = Some(file);
                Ok(true)
            }
            Ok(None) => {
                self.absent = self.absent.saturating_add(1);
                Ok(false)
            }
            Err(error) => {
                self.faults = self.faults.saturating_add(1);
                Err(error)
            }
        }
    }
}

impl<R: Files + Clone + Drop> Store for DiskStore<R> {
    ghost seen = { λ s. record {
      files = None;
      reading = None;
      given = s.given;
      faults = s.faults;
      absent = s.absent;
      torn = s.torn;
    } };

    fn begin_read(&mut self, _alloc: Global, name: &str) -> Result<bool, PortError>
        ensures begins { BeginsRead name.now (⟦<DiskStore<R> as Store>⟧.seen self.old)
            (⟦<DiskStore<R> as Store>⟧.seen self.new) result }
        // A file is open exactly after `Ok(true)`.
        ensures open { OnFound result (IsSome (open_file self.new)) }
        ensures none_open { OnMissing result (IsNone (open_file self.new)) }
        ensures closed { OnErr result (IsNone (open_file self.new)) }
    {
        let opened = fs::open(&self.rt, name);
        self.begun(opened)
    }

    fn read(&mut self, _alloc: Global, buf: &mut [u8]) -> Result<usize, PortError>
        ensures reads { ReadsNext buf.new (⟦<DiskStore<R> as Store>⟧.seen self.old)
            (⟦<DiskStore<R> as Store>⟧.seen self.new) result }
        // What the open file has left is handed out from its front, where the file tells it.
        ensures front { IfOk result (λ n. Consumes (left_of R.File.remaining (open_file self.old))
            (left_of R.File.remaining (open_file self.new)) (take n buf.new)) }
        ensures at_end { IfOk result (λ n. n ≡ 0 → 0 < length buf.new →
            IsAtEnd (left_of R.File.remaining (open_file self.old))) }
        ensures closed { OnErr result (IsNone (open_file self.new)) }
    {
        let Some(file) = &mut self.file else {
            return Ok(0);
        };
        match read_patiently(file, buf) {
            Some(count) => {
                self.given = self.given.saturating_add(count as u64);
                Ok(count)
            }
            None => {
                self.file = None;
                self.faults = self.faults.saturating_add(1);
                Err(PortError::Failed)
            }
        }
    }

    fn replace(&mut self, alloc: Global, name: &str, bytes: &[u8]) -> Result<(), PortError>
        ensures replaces { Replaces name.now bytes.now (⟦<DiskStore<R> as Store>⟧.seen self.old)
            (⟦<DiskStore<R> as Store>⟧.seen self.new) result }
        ensures closed { IsNone (open_file self.new) }
    {
        self.file = None;
        match replace_whole(alloc, &self.rt, name, bytes) {
            Ok(()) => Ok(()),
            Err(PortError::Memory) => Err(PortError::Memory),
            Err(PortError::Failed) => {
                self.torn = self.torn.saturating_add(1);
                self.faults = self.faults.saturating_add(1);
                Err(PortError::Failed)
            }
        }
    }

    ghost tells_both = { λ _ told. told };
}

/// The file that was opened, or `None` exactly where there is no file of the name. Every other error is a fault: a
/// folder on the way that is none, a file that may not be read, an error of the disk.
pub(crate) fn opening<F: Drop>(opened: io::Result<F>) -> Result<Option<F>, PortError>
    ensures found { IfOk opened (λ file. result ≡ Ok (Some file)) }
    ensures missing { IfErr opened (λ error. error_kind error ≡ ErrorKind.NotFound → result ≡ Ok None) }
    ensures failed { IfErr opened (λ error. error_kind error ≢ ErrorKind.NotFound → result ≡ Err PortError.Failed) }
{
    match opened {
        Ok(file) => Ok(Some(file)),
        Err(error) => match error.kind() {
            ErrorKind::NotFound => Ok(None),
            _ => Err(PortError::Failed),
        },
    }
}

/// What a try to read came to.
#[derive(Clone, Copy)]
pub(crate) enum Tried {
    /// So many bytes were read.
    Read(usize),
    /// A signal came before the first byte, so the read is to be tried again.
    Interrupted,
    /// The read failed.
    Failed,
}

/// What a try to read came to: it is tried again exactly where it was interrupted, and every other error is a fault.
pub(crate) fn what_came_of(answer: io::Result<usize>) -> Tried
    ensures read { IfOk answer (λ count. result ≡ Tried.Read count) }
    ensures again { IfErr answer (λ error. error_kind error ≡ ErrorKind.Interrupted → result ≡ Tried.Interrupted) }
    ensures failed { IfErr answer (λ error. error_kind error ≢ ErrorKind.Interrupted → result ≡ Tried.Failed) }
{
    match answer {
        Ok(count) => Tried::Read(count),
        Err(error) => match error.kind() {
            ErrorKind::Interrupted => Tried::Interrupted,
            _ => Tried::Failed,
        },
    }
}

/// Reads into the front of `buf`, again where a signal interrupted it. `None` says that it failed.
fn read_patiently<F: Read>(file: &mut F, buf: &mut [u8]) -> Option<usize>
    ensures at_most { IfSome result (λ n. IsPrefixLen n buf.new) }
    ensures front { IfSome result (λ n. Consumes (F.remaining file.old) (F.remaining file.new) (take n buf.new)) }
    ensures at_end { IfSome result (λ n. n ≡ 0 → 0 < length buf.new → IsAtEnd (F.remaining file.old)) }
{
    for _ in 0..TRIES {
        match what_came_of(file.read(buf)) {
            Tried::Read(count) => return Some(count),
            Tried::Interrupted => {}
            Tried::Failed => return None,
        }
    }
    None
}

/// The standard output of the system.
#[derive(Drop)]
pub struct OutSink<R: Print + Clone + Drop> {
    rt: R,
    faults: u64,
}

impl<R: Print + Clone + Drop> OutSink<R> {
    /// A sink over the output of the runtime `rt`, which it keeps.
    pub fn new(rt: R) -> OutSink<R>
        ensures seen { ⟦<OutSink<R> as Sink>⟧.seen result ≡ record { written = None; faults = 0 } }
    {
        OutSink { rt, faults: 0 }
    }
}

impl<R: Print + Clone + Drop> Sink for OutSink<R> {
    ghost seen = { λ s. record { written = None; faults = s.faults } };

    fn put(&mut self, _alloc: Global, bytes: &[u8]) -> Result<(), PortError> {
        match self.rt.write_all(bytes) {
            Ok(()) => Ok(()),
            Err(_) => {
                self.faults = self.faults.saturating_add(1);
                Err(PortError::Failed)
            }
        }
    }
}
