//! Tests of the files in JSON: their values, program files and public files.
#![tactic(auto)]

#[cfg(test)]
mod tests;
