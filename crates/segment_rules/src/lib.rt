//! Rules for the cells of a builtin's segment: a law that says which numbers it may hold, and the closure that judges them.
#![tactic(auto)]

mod book;
mod judging;

pub use book::{Judge, KeptRule, RuleBook};

/// A builtin, which has a segment of its own.
#[derive(Clone, Copy, Debug, PartialEq, Eq)]
pub enum Builtin {
    /// The output, whose cells are public.
    Output,
    /// The range check, whose cells have few limbs.
    RangeCheck,
}

/// Which numbers the cells of a builtin's segment may hold.
#[derive(Debug, Drop, PartialEq, Eq)]
pub enum CellLaw {
    /// The numbers below this one.
    Below(u64),
    /// These numbers.
    Listed(Vec<u64>),
}
