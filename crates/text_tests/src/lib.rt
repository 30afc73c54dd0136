//! Tests of assembly texts: names, words of statements, tokens, the grammar, canonical texts and programs.
#![tactic(auto)]

#[cfg(test)]
mod tests;
