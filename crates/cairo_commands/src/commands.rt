//! The commands, a module each.

pub(crate) mod asm;
pub(crate) mod check;
pub(crate) mod dis;
pub(crate) mod run;
pub(crate) mod tables;
pub(crate) mod walk;
