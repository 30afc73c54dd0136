//! What a line says, with names that are borrowed from its text.

use casm_statements::{Cell, Label, Stmt};
use goldilocks::Felt;

/// The target of a directive, with a name that is borrowed.
#[derive(Clone, Copy, Debug)]
pub enum TargetRef<'a> {
    /// A number.
    Number(u32),
    /// A label.
    Name(Label<'a>),
}

/// A directive, a statement or a `dw`.
#[derive(Clone, Copy, Debug)]
pub enum Phrase<'a> {
    /// `%builtins`
    Builtins {
        /// `output` stands in it.
        output: bool,
        /// `range_check` stands in it.
        range: bool,
    },
    /// `%start`
    Start(TargetRef<'a>),
    /// `%end`
    End(TargetRef<'a>),
    /// A statement without labels.
    Stmt(Stmt),
    /// A jump to a label.
    JumpTo {
        /// The label.
        name: Label<'a>,
        /// Whether ap goes up by one.
        inc: bool,
    },
    /// A jump to a label under a condition.
    BranchTo {
        /// The cell that is tested.
        cond: Cell,
        /// The label.
        name: Label<'a>,
        /// Whether ap goes up by one.
        inc: bool,
    },
    /// A call of the function at a label.
    CallTo(Label<'a>),
    /// `dw`
    Dw(Felt),
}

/// A line: a label, and what else it says.
#[derive(Clone, Copy, Debug)]
pub struct Line<'a> {
    /// The label before it, if there is one.
    pub label: Option<Label<'a>>,
    /// What it says, if it says more.
    pub phrase: Option<Phrase<'a>>,
}
