//! Statements and items as they are printed: in their canonical texts.
ghost use Rattle.std.specs.Prelude.{Some, List, ℕ};
ghost use Rattle.casm_statements.specs.Canonical.{reg_text, offset_text, cell_text, number_text, term_text, operand_text, inc_text, way_text, stmt_text, target_text, body_text};

use crate::{Body, Cell, Item, Name, Operand, Reg, Stmt, Target, Term};
use goldilocks::{Felt, PRIME};
use std::fmt;

/// The greatest number that is written without a minus.
const HALF: u64 = (PRIME - 1) / 2;

/// An offset with its sign, or nothing for 0.
#[derive(Clone, Copy)]
struct Offset {
    by: i16,
}

impl fmt::Display for Offset {
    ghost output = { λ offset. Some (offset_text offset.by) };

    fn fmt<W: fmt::Write>(&self, f: &mut fmt::Formatter<W>) -> fmt::Result {
        let by = self.by;
        let size = by.unsigned_abs();
        if by == 0 {
            Ok(())
        } else if by > 0 {
            write!(f, " + {size}")
        } else {
            write!(f, " - {size}")
        }
    }
}

/// A number, with a minus where that is nearer to 0.
#[derive(Clone, Copy)]
struct Signed {
    value: Felt,
}

impl fmt::Display for Signed {
    ghost output = { λ signed. Some (number_text signed.value) };

    fn fmt<W: fmt::Write>(&self, f: &mut fmt::Formatter<W>) -> fmt::Result {
        let number = self.value.number;
        if number <= HALF {
            write!(f, "{number}")
        } else {
            let missing = PRIME - number;
            write!(f, "-{missing}")
        }
    }
}

/// `ap` or `fp`.
impl fmt::Display for Reg {
    ghost output = { λ reg. Some (reg_text reg) };

    fn fmt<W: fmt::Write>(&self, f: &mut fmt::Formatter<W>) -> fmt::Result {
        match self {
            Reg::Ap => write!(f, "ap"),
            Reg::Fp => write!(f, "fp"),
        }
    }
}

/// The cell, as `[ap]` or `[fp - 3]`.
impl fmt::Display for Cell {
    ghost output = { λ cell. Some (cell_text cell) };

    fn fmt<W: fmt::Write>(&self, f: &mut fmt::Formatter<W>) -> fmt::Result {
        let reg = self.reg;
        let offset = Offset { by: self.off };
        write!(f, "[{reg}{offset}]")
    }
}

/// The cell or the number.
impl fmt::Display for Term {
    ghost output = { λ term. Some (term_text term) };

    fn fmt<W: fmt::Write>(&self, f: &mut fmt::Formatter<W>) -> fmt::Result {
        match *self {
            Term::Cell(cell) => write!(f, "{cell}"),
            Term::Imm(value) => {
                let number = Signed { value };
                write!(f, "{number}")
            }
        }
    }
}

/// What is computed, as `[[fp] + 2]` or `[ap] + -1`.
impl fmt::Display for Operand {
    ghost output = { λ operand. Some (operand_text operand) };

    fn fmt<W: fmt::Write>(&self, f: &mut fmt::Formatter<W>) -> fmt::Result {
        match *self {
            Operand::Deref(cell) => write!(f, "{cell}"),
            Operand::Double(cell, by) => {
                let offset = Offset { by };
                write!(f, "[{cell}{offset}]")
            }
            Operand::Imm(value) => {
                let number = Signed { value };
                write!(f, "{number}")
            }
            Operand::Sum(cell, term) => write!(f, "{cell} + {term}"),
            Operand::Product(cell, term) => write!(f, "{cell} * {term}"),
        }
    }
}

/// `; ap++`, where ap goes up.
#[derive(Clone, Copy)]
struct Increment {
    inc: bool,
}

impl fmt::Display for Increment {
    ghost output = { λ increment. Some (inc_text increment.inc) };

    fn fmt<W: fmt::Write>(&self, f: &mut fmt::Formatter<W>) -> fmt::Result {
        if self.inc {
            write!(f, "; ap++")
        } else {
            Ok(())
        }
    }
}

/// `abs ` or `rel `.
#[derive(Clone, Copy)]
struct Way {
    abs: bool,
}

impl fmt::Display for Way {
    ghost output = { λ way. Some (way_text way.abs) };

    fn fmt<W: fmt::Write>(&self, f: &mut fmt::Formatter<W>) -> fmt::Result {
        if self.abs {
            write!(f, "abs ")
        } else {
            write!(f, "rel ")
        }
    }
}

/// The statement in its canonical text.
impl fmt::Display for Stmt {
    ghost output = { λ stmt. Some (stmt_text stmt) };

    fn fmt<W: fmt::Write>(&self, f: &mut fmt::Formatter<W>) -> fmt::Result {
        match *self {
            Stmt::Assert { dst, res, inc } => {
                let more = Increment { inc };
                write!(f, "{dst} = {res}{more}")
            }
            Stmt::Jump { abs, res, inc } => {
                let way = Way { abs };
                let more = Increment { inc };
                write!(f, "jmp {way}{res}{more}")
            }
            Stmt::Branch { cond, to, inc } => {
                let more = Increment { inc };
                write!(f, "jmp rel {to} if {cond} != 0{more}")
            }
            Stmt::Call { abs, to } => {
                let way = Way { abs };
                write!(f, "call {way}{to}")
            }
            Stmt::Ret => write!(f, "ret"),
            Stmt::AddAp { res } => write!(f, "ap += {res}"),
        }
    }
}

/// Its bytes, which are ASCII.
impl fmt::Display for Name {
    ghost output = { λ name. Some name };

    fn fmt<W: fmt::Write>(&self, f: &mut fmt::Formatter<W>) -> fmt::Result {
        match str::from_utf8(self.text()) {
            Ok(text) => f.write_str(text),
            Err(_) => unreachable!(),
        }
    }
}

/// The number in decimal digits, or the name.
impl fmt::Display for Target {
    ghost output = { λ target. Some (target_text target) };

    fn fmt<W: fmt::Write>(&self, f: &mut fmt::Formatter<W>) -> fmt::Result {
        match self {
            Target::Number(number) => write!(f, "{number}"),
            Target::Name(name) => write!(f, "{name}"),
        }
    }
}

/// What the line says, in its canonical text.
impl fmt::Display for Body {
    ghost output = { λ body. Some (body_text body) };

    fn fmt<W: fmt::Write>(&self, f: &mut fmt::Formatter<W>) -> fmt::Result {
        match self {
            Body::Builtins { output, range } => {
                let output = if *output { " output" } else { "" };
                let range = if *range { " range_check" } else { "" };
                write!(f, "%builtins{output}{range}")
            }
            Body::Start(target) => write!(f, "%start {target}"),
            Body::End(target) => write!(f, "%end {target}"),
            Body::Label(name) => write!(f, "{name}:"),
            Body::Stmt(stmt) => write!(f, "{stmt}"),
            Body::JumpTo { name, inc } => {
                let more = Increment { inc: *inc };
                write!(f, "jmp {name}{more}")
            }
            Body::BranchTo { cond, name, inc } => {
                let more = Increment { inc: *inc };
                write!(f, "jmp {name} if {cond} != 0{more}")
            }
            Body::CallTo(name) => write!(f, "call {name}"),
            Body::Dw(value) => write!(f, "dw 0x{:x}", value.number),
        }
    }
}

/// What the item says: its line without a line feed.
impl fmt::Display for Item {
    ghost output = { λ item. Some (body_text item.body) };

    fn fmt<W: fmt::Write>(&self, f: &mut fmt::Formatter<W>) -> fmt::Result {
        self.body.fmt(f)
    }
}
