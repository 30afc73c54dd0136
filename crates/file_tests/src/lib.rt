//! Tests of the files of numbers: traces, memories and tables, and the records that they have.
#![tactic(auto)]

#[cfg(test)]
mod tests;
