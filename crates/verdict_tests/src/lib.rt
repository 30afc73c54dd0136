//! Tests of the tables that are built of runs, and of the verdict on tables.
#![tactic(auto)]

#[cfg(test)]
mod tests;
