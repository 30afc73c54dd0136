//! Assembly text: what it means, and how it is printed.
#![tactic(auto)]

mod items;
mod laws;
mod parser;
mod printer;
mod reading;

pub use casm_statements::{
    Body, Cell, Item, Name, Operand, Reg, Stmt, Target, Term, of_word, to_word,
};
pub use casm_tokens::{ParseFault, SyntaxKind, Token, TokenKind, tokens};
pub use laws::{read_back, text_laws};
pub use parser::parse;
pub use printer::print;
pub use reading::reading_laws;
