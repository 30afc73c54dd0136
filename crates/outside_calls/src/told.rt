//! What is told of a call.

ghost use Rattle.std.specs.Prelude.{◌≡◌, ◌++◌, None, IsNone, IfSome, IfOk, codes, string_bytes};
ghost use Rattle.sha2.specs.Sha256.{sha256};

use sha2::{Digest, Sha256};
use std::alloc::{AllocError, Global};
use std::str;

/// The SHA-256 of a file, or `None` where it is missing.
pub type Mark = Option<[u8; 32]>;

/// The mark of a file with these bytes.
pub fn mark_of(file: Option<&[u8]>) -> Mark
    ensures digest { IfSome file.entry (λ bytes. result ≡ Some (sha256 bytes.now)) }
    ensures missing { IsNone file.entry → result ≡ None }
{
    match file {
        Some(bytes) => Some(Sha256::digest(bytes)),
        None => None,
    }
}

/// A printed line without its line feed.
pub fn line_told(printed: &[u8]) -> &str {
    match str::from_utf8(printed) {
        Ok(line) => line.strip_suffix('\n').unwrap_or("(a line with no end)"),
        Err(_) => "(no text)",
    }
}

/// A file after a call: its name, length and SHA-256.
pub fn file_told(alloc: Global, name: &str, file: Option<&[u8]>) -> Result<String, AllocError> {
    match file {
        None => format!(in alloc; " | {name} is gone"),
        Some(bytes) => {
            let digest = hex::encode(alloc, Sha256::digest(bytes))?;
            format!(in alloc; " | {name} {} {digest}", bytes.len())
        }
    }
}
