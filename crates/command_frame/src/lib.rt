//! What every command shares: its inputs are read, its outputs are written, its line is printed, and its status says how
//! it ended.
//!
//! A command is a function that reads its inputs by [`read_input`] and comes to a [`Work`], or to a [`Refusal`].
//! [`finish`] writes the outputs, prints the line and answers the [`Status`]. Nothing here names a command or a format of
//! files: a format is an `impl` of [`FileFormat`].
#![tactic(auto)]

mod ending;
mod finishing;
mod formats;
mod laws;
mod outputs;
mod pieces;
mod printing;
mod status;

pub use ending::{Conclusion, Output, Refusal, Work};
pub use finishing::finish;
pub use formats::{FileFormat, Unread, read_input};
pub use laws::sure_laws;
pub use pieces::{Input, Taker, read_pieces};
pub use status::Status;
