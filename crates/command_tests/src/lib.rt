//! Tests of the commands: calls of `perform` over stores and sinks in memory.
#![tactic(auto)]

#[cfg(test)]
mod tests;
