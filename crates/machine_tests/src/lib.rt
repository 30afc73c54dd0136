//! Tests of the machine's lower layers: the field, words and steps, segments, relocation, and the start of a run.
#![tactic(auto)]

#[cfg(test)]
mod tests;
