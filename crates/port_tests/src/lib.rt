//! Tests of the stores and sinks: those in memory, the real files, and a disk that fails.
#![tactic(auto)]

#[cfg(test)]
mod tests;
