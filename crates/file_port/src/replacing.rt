//! A real file is replaced so that nobody who reads it finds half of it.

ghost use Rattle.std.specs.Prelude.{◌≡◌, ◌≢◌, IfOk, IfErr, IsOk, Ok, Err, None};
ghost use Rattle.std.specs.IoError.{error_kind};
ghost use Rattle.std.specs.Fs.{IsFile, file_type, metadata_mode};
ghost use Rattle.file_port.specs.Replacing.{KeepsMode};

use crate::ports::PortError;
use std::alloc::{AllocError, Global};
use std::fs::{self, File, Metadata, OpenFile, OpenOptions, Permissions};
use std::io::{self, ErrorKind, Write};
use std::rt::Files;

/// How many names are tried for the new file, each of which another call may hold or have left behind.
const TRIES: u32 = 1000;

/// How a file is replaced.
#[derive(Drop)]
pub(crate) enum Manner {
    /// By a new file beside it, which is renamed into its place. Where a file is there, this has its permissions.
    Beside(Option<Permissions>),
    /// By writing into it: it is a device, a pipe, a link or a folder, or can't be looked at.
    InPlace,
}

/// How a file is replaced of which this was found: beside it exactly where it is a regular file or isn't there.
pub(crate) fn manner_of(found: io::Result<Metadata>) -> Manner
    ensures file { IfOk found (λ metadata. IsFile (file_type metadata) →
        KeepsMode (metadata_mode metadata) result) }
    ensures special { IfOk found (λ metadata. (IsFile (file_type metadata) → ⊥) → result ≡ Manner.InPlace) }
    ensures missing { IfErr found (λ error. error_kind error ≡ ErrorKind.NotFound → result ≡ Manner.Beside None) }
    ensures unknown { IfErr found (λ error. error_kind error ≢ ErrorKind.NotFound → result ≡ Manner.InPlace) }
{
    match found {
        Ok(metadata) => {
            if metadata.is_file() {
                Manner::Beside(Some(metadata.permissions()))
            } else {
                Manner::InPlace
            }
        }
        Err(error) => match error.kind() {
            ErrorKind::NotFound => Manner::Beside(None),
            _ => Manner::InPlace,
        },
    }
}

/// Makes the file `name` hold `bytes`. A new file is flushed before it takes the place of another. Where that fails, a
/// regular file is as before.
///
/// What is written, that it is flushed first, and that no other file is left, is tested and not proved. No clause of the
/// system's files tells it.
pub(crate) fn replace_whole<R: Files>(
    alloc: Global,
    files: &R,
    name: &str,
    bytes: &[u8],
) -> Result<(), PortError> {
    match manner_of(fs::symlink_metadata(files, name)) {
        Manner::Beside(Some(permissions)) if may_write(files, name) => {
            replace_beside(alloc, files, name, bytes, Some(permissions))
        }
        Manner::Beside(Some(_)) => Err(PortError::Failed),
        Manner::Beside(None) => replace_beside(alloc, files, name, bytes, None),
        Manner::InPlace => or_failed(write_in_place(files, name, bytes)),
    }
}

/// Whether the file may be written by whoever runs the program: renaming asks for no such permission.
fn may_write<R: Files>(files: &R, name: &str) -> bool {
    OpenOptions::new().write(true).open(files, name).is_ok()
}

/// Writes the bytes into a new file beside `name`, and renames that into its place. Where a part of this fails, the
/// new file is removed, if the system lets it.
fn replace_beside<R: Files>(
    alloc: Global,
    files: &R,
    name: &str,
    bytes: &[u8],
    permissions: Option<Permissions>,
) -> Result<(), PortError> {
    let (beside, file) = create_beside(alloc, files, name)?;
    if fill(file, bytes, permissions).is_ok() && fs::rename(files, beside.as_str(), name).is_ok() {
        return Ok(());
    }
    match fs::remove_file(files, beside.as_str()) {
        Ok(()) | Err(_) => Err(PortError::Failed),
    }
}

/// A new file in the folder of the file `name`, and its own name, which no file had.
fn create_beside<R: Files>(
    alloc: Global,
    files: &R,
    name: &str,
) -> Result<(String, R::File), PortError> {
    for number in 0..TRIES {
        let beside = name_beside(alloc, name, number)?;
        match File::create_new(files, beside.as_str()) {
            Ok(file) => return Ok((beside, file)),
            Err(error) => match error.kind() {
                ErrorKind::AlreadyExists => {}
                _ => return Err(PortError::Failed),
            },
        }
    }
    Err(PortError::Failed)
}

/// The name of the new file with this number, in the folder of the file `name`.
fn name_beside(alloc: Global, name: &str, number: u32) -> Result<String, AllocError> {
    match name.rsplit_once('/') {
        Some((folder, _)) => format!(in alloc; "{folder}/.golvushem-{number}"),
        None => format!(in alloc; ".golvushem-{number}"),
    }
}

/// Gives the new file its permissions and then its bytes, and flushes it. A disk that is full may say so only here.
fn fill<F: Write + OpenFile + Drop>(
    mut file: F,
    bytes: &[u8],
    permissions: Option<Permissions>,
) -> io::Result<()> {
    if let Some(permissions) = permissions {
        file.set_permissions(permissions)?;
    }
    file.write_all(bytes)?;
    file.sync_all()
}

/// Writes the bytes into what the name stands for, and flushes it.
fn write_in_place<R: Files>(files: &R, name: &str, bytes: &[u8]) -> io::Result<()> {
    let mut file = File::create(files, name)?;
    file.write_all(bytes)?;
    flushed_in_place(file.sync_all())
}

/// What a flush in place came to. A device or a pipe has nothing to flush, which the system calls an invalid input; every
/// other error is a fault.
fn flushed_in_place(flushed: io::Result<()>) -> io::Result<()>
    ensures ok { IfOk flushed (λ done. result ≡ Ok done) }
    ensures unable { IfErr flushed (λ error. error_kind error ≡ ErrorKind.InvalidInput → IsOk result) }
    ensures failed { IfErr flushed (λ error. error_kind error ≢ ErrorKind.InvalidInput → result ≡ Err error) }
{
    match flushed {
        Ok(()) => Ok(()),
        Err(error) => match error.kind() {
            ErrorKind::InvalidInput => Ok(()),
            _ => Err(error),
        },
    }
}

/// A fault of the system, whichever it is.
fn or_failed(written: io::Result<()>) -> Result<(), PortError>
    ensures ok { IfOk written (λ done. result ≡ Ok done) }
    ensures failed { IfErr written (λ _. result ≡ Err PortError.Failed) }
{
    match written {
        Ok(()) => Ok(()),
        Err(_) => Err(PortError::Failed),
    }
}
