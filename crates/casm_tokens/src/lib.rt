//! The tokens of assembly text.
#![tactic(auto)]

mod cutter;
mod fault;
mod laws;
mod lines;
mod marks;
mod pieces;
mod scanner;
mod spans;

pub use cutter::{stop_fault, tokens};
pub use fault::{ParseFault, SyntaxKind};
pub use laws::token_laws;
pub use lines::split_line;
pub use marks::{Lexeme, Mark, Symbol};
pub use scanner::{NoToken, scan_line};
pub use spans::{Token, TokenKind};

/// The most bytes that a text may have, 2^24.
pub const TEXT_LIMIT: usize = 16777216;
