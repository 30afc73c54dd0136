//! Tables of texts and statements. What they mean was worked out by hand, from the grammar and the table of words.

mod faults;
mod forms;
mod lines;
mod names;
mod programs;
mod statements;
mod tokens;
