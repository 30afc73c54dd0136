//! The grammar of a line of assembly text.
#![tactic(auto)]

mod directive;
mod laws;
mod line;
mod marks;
mod parts;
mod phrase;
mod refusal;
mod statements;

pub use directive::{Directive, directive_word};
pub use laws::line_laws;
pub use line::{LineFault, read_line};
pub use phrase::{Line, Phrase, TargetRef};
