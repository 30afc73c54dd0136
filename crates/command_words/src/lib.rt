//! The commands with their forms, and what the words of a call ask for.
#![tactic(auto)]

mod calls;
mod laws;
mod names;
mod numbers;
mod table;
mod words;

pub use calls::Form;
pub use laws::{form_laws, number_laws};
pub use numbers::{WORKER_LIMIT, number_in};
pub use table::{Command, CommandForm, Part, forms};
pub use words::{form, form_in};
