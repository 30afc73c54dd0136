//! The program: the words after its name are a command over real files, and its exit status is how that ended.
#![tactic(auto)]

ghost use Rattle.std.specs.Prelude.{◌≡◌, ◌≢◌, ◌↔◌, [], drop, IsTrue, None, IfOk, IfErr, IsErr};
ghost use Rattle.std.specs.IoError.{error_kind};
ghost use Rattle.std.specs.Process.{exit_status};
ghost use Rattle.cairo_commands.specs.Status.{status_number};
ghost use Rattle.cairo_commands.specs.Reply.{request_of};
ghost use Rattle.cairo_commands.specs.Perform.{Performs};

use cairo_commands::{Status, perform};
use file_port::{DiskStore, OutSink, Sink, Store};
use std::alloc::{AllocError, Global};
use std::env::{self, Args};
use std::io::{self, ErrorKind};
use std::process::ExitCode;
use std::rt::Env;

fn main(rt: HostRuntime) -> ExitCode {
    let mut store = DiskStore::new(rt);
    let mut sink = OutSink::new(rt);
    let status = answer(rt.alloc(), words_of_call(&rt), &mut store, &mut sink);
    exit_code(status)
}

/// Does what the words after the program's name ask for. What is said of it is what is said of [`perform`]. Where
/// there was no memory for the words, that is the answer, and nothing is done.
fn answer<S: Store, K: Sink>(
    alloc: Global,
    words: Result<Vec<String>, AllocError>,
    store: &mut S,
    sink: &mut K,
) -> Status
    ensures performs { IfOk words (λ words. Performs (drop 1 words.items)
        (S.seen store.old) (S.seen store.new) (K.seen sink.old) (K.seen sink.new) result) }
    ensures untouched { IfOk words (λ words. request_of (drop 1 words.items) ≡ None → store.new ≡ store.old) }
    ensures no_words { IfErr words (λ _. (result ≡ Status.Memory) × (store.new ≡ store.old) × (sink.new ≡ sink.old)) }
{
    match words {
        Ok(words) => perform(alloc, after_name(&words), store, sink),
        Err(_) => Status::Memory,
    }
}

/// The words of the call, from the program's name on.
fn words_of_call<R: Env + AllocGlobal>(rt: &R) -> Result<Vec<String>, AllocError> {
    words_of(rt.alloc(), env::args(rt))
}

/// The words that were found. Where one of them is no text there are none, which are an unknown command.
fn words_of(alloc: Global, found: io::Result<Args>) -> Result<Vec<String>, AllocError>
    ensures found { IfOk found (λ words. IfOk result (λ list. list.items ≡ words.rest.items)) }
    ensures no_text { IfErr found (λ error. error_kind error ≢ ErrorKind.OutOfMemory → IfOk result (λ list. list.items ≡ [])) }
    ensures no_memory { IfErr found (λ error. error_kind error ≡ ErrorKind.OutOfMemory → IsErr result) }
{
    match found {
        Ok(words) => collected(alloc, words),
        Err(error) if is_out_of_memory(error.kind()) => Err(AllocError),
        Err(_) => Ok(Vec::new(alloc)),
    }
}

fn collected(alloc: Global, found: Args) -> Result<Vec<String>, AllocError>
    ensures { IfOk result (λ list. list.items ≡ found.rest.items) }
{
    let mut words = Vec::new(alloc);
    for word in found {
        words.push(word)?;
    }
    Ok(words)
}

fn is_out_of_memory(kind: ErrorKind) -> bool
    ensures { IsTrue result ↔ (kind ≡ ErrorKind.OutOfMemory) }
{
    match kind {
        ErrorKind::OutOfMemory => true,
        _ => false,
    }
}

/// The words after the first one, the program's name.
fn after_name(words: &[String]) -> &[String]
    ensures { result.now ≡ drop 1 words.now }
{
    match words {
        [_, rest @ ..] => rest,
        [] => &[],
    }
}

/// The exit status that says how the call ended.
fn exit_code(status: Status) -> ExitCode
    ensures { exit_status result ≡ status_number status }
{
    ExitCode::from(status.number())
}
