//! Tests of the sorted lists, of the columns, of the rows, and of the lists of accesses and small values.
#![tactic(auto)]

#[cfg(test)]
mod tests;
