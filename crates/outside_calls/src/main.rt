//! Makes the calls of a list, whose file is named by the one word of the command line, over a store in memory. It prints
//! one line for each: its name, its status, what it printed, and each file that it made or changed. The head of the list
//! in `data/` says how a list is written.
#![tactic(auto)]

mod entries;
mod replay;
mod told;

use anyhow::{Context, Result, bail};
use replay::Replay;
use std::rt::Files;
use std::{env, fs};

fn main(rt: HostRuntime) -> Result<()> {
    let mut words = env::args(&rt)?;
    let _program = words.next();
    match (words.next(), words.next()) {
        (Some(name), None) => follow_list(&rt, name.as_str()),
        _ => bail!("usage: outside_calls LIST"),
    }
}

/// Follows the list of this name from its first line to its last.
fn follow_list<R: Files + Print + AllocGlobal>(rt: &R, name: &str) -> Result<()> {
    let list = fs::read_to_string(rt, name).context(format_args!("reading {name}"))?;
    let mut replay = Replay::new(rt.alloc());
    for (place, line) in list.lines().enumerate() {
        let number = place.saturating_add(1);
        let told = replay
            .follow(line)
            .context(format_args!("{name}, line {number}"))?;
        if let Some(told) = told {
            rt.println(told)?;
        }
    }
    Ok(())
}
