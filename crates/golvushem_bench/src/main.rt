//! Work to be timed: `golvushem_bench SUBJECT TASK` prints one number that the task comes to. `bench/run` times each
//! task beside the same in plain Rust. A subject is a module of its own, and one line in [`work`].
#![tactic(auto)]

mod columns;
mod field;
mod rows;

use std::alloc::{AllocError, Global};
use std::{env, io};

/// What the task comes to, where there is one of that name.
fn work(alloc: Global, subject: &str, task: &str) -> Result<Option<u64>, AllocError> {
    match subject {
        "columns" => columns::work(alloc, task),
        "field" => Ok(field::work(task)),
        "rows" => rows::work(alloc, task),
        _ => Ok(None),
    }
}

fn main(rt: HostRuntime) -> io::Result<()> {
    let mut words = env::args(&rt)?;
    let _program = words.next();
    let subject = words.next();
    let task = words.next();
    if let (Some(subject), Some(task)) = (subject, task)
        && let Some(number) = work(rt.alloc(), subject.as_str(), task.as_str())?
    {
        println!(rt; "{number}")?;
    }
    Ok(())
}
