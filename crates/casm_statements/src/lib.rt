//! Statements of the assembly language, the words that they are written in, and the items of a text.
#![tactic(auto)]

mod encoding;
mod guess;
mod label;
mod name;
mod text;

pub use encoding::to_word;
use goldilocks::Felt;
pub use guess::of_word;
pub use label::Label;
pub use name::{Name, Reserved, is_word_byte, is_word_head, reserved_word};

/// A register that a cell is counted from.
#[derive(Clone, Copy, Debug, PartialEq, Eq)]
pub enum Reg {
    /// The next free cell.
    Ap,
    /// The frame of the current function.
    Fp,
}

/// A cell by a register, as `[fp - 3]`.
#[derive(Clone, Copy, Debug, PartialEq, Eq)]
pub struct Cell {
    /// The register.
    pub reg: Reg,
    /// How many cells from it.
    pub off: i16,
}

/// A cell or a number.
#[derive(Clone, Copy, Debug, PartialEq, Eq)]
pub enum Term {
    /// What the cell holds.
    Cell(Cell),
    /// The number, which stands after the instruction.
    Imm(Felt),
}

/// What an instruction computes.
#[derive(Clone, Copy, Debug, PartialEq, Eq)]
pub enum Operand {
    /// What the cell holds, as `[ap]`.
    Deref(Cell),
    /// What the cell holds whose address is that of the first, moved by the offset, as `[[fp] + 2]`.
    Double(Cell, i16),
    /// The number.
    Imm(Felt),
    /// The sum, as `[ap] + 5`.
    Sum(Cell, Term),
    /// The product, as `[ap] * [fp]`.
    Product(Cell, Term),
}

/// One instruction of the machine.
#[derive(Clone, Copy, Debug, PartialEq, Eq)]
pub enum Stmt {
    /// `dst = res`, and ap goes up by one with `inc`.
    Assert {
        /// The cell that is compared.
        dst: Cell,
        /// What it holds.
        res: Operand,
        /// Whether ap goes up by one.
        inc: bool,
    },
    /// A jump to `res`, or by it.
    Jump {
        /// To `res`, else by it.
        abs: bool,
        /// Where to, or how far.
        res: Operand,
        /// Whether ap goes up by one.
        inc: bool,
    },
    /// A jump by `to` where `cond` doesn't hold 0.
    Branch {
        /// The cell that is tested.
        cond: Cell,
        /// How far.
        to: Term,
        /// Whether ap goes up by one.
        inc: bool,
    },
    /// A call of the function at `to`, or that far from here.
    Call {
        /// At `to`, else that far from here.
        abs: bool,
        /// Where to, or how far.
        to: Term,
    },
    /// A return to the caller.
    Ret,
    /// Moves ap by `res`.
    AddAp {
        /// How far.
        res: Operand,
    },
}

/// A place of a program: a number, or the label that stands there.
#[derive(Debug, PartialEq, Eq, Drop)]
pub enum Target {
    /// The place.
    Number(u32),
    /// The label.
    Name(Name),
}

/// What a line says, or one of the two things that it says where it has a label and a statement.
#[derive(Debug, PartialEq, Eq, Drop)]
pub enum Body {
    /// The builtins that the program uses.
    Builtins {
        /// Its output is public.
        output: bool,
        /// It has range-checked cells.
        range: bool,
    },
    /// Where the program starts.
    Start(Target),
    /// Where it ends.
    End(Target),
    /// A label: the place of the next word.
    Label(Name),
    /// A statement without labels.
    Stmt(Stmt),
    /// A jump to a label.
    JumpTo {
        /// The label.
        name: Name,
        /// Whether ap goes up by one.
        inc: bool,
    },
    /// A jump to a label where `cond` doesn't hold 0.
    BranchTo {
        /// The cell that is tested.
        cond: Cell,
        /// The label.
        name: Name,
        /// Whether ap goes up by one.
        inc: bool,
    },
    /// A call of the function at a label.
    CallTo(Name),
    /// A number as a word.
    Dw(Felt),
}

/// One item of a text.
#[derive(Debug, PartialEq, Eq, Drop)]
pub struct Item {
    /// The line that it stands on, from 1.
    pub line: u32,
    /// What it says.
    pub body: Body,
}
