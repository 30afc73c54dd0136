//! The word of a statement.

ghost use Rattle.std.specs.Prelude.{◌≡◌, pos, not, true, false};
ghost use Rattle.casm_statements.specs.Words.{no_flags, unused, is_fp, with_dst, with_op0, with_op1, with_immediate, with_term, with_operand, encoding};

use crate::{Cell, Operand, Reg, Stmt, Term};
use casm_word::{Flags, Word};
use goldilocks::Felt;

const NO_FLAGS: Flags = Flags {
    dst_fp: false,
    op0_fp: false,
    op1_imm: false,
    op1_fp: false,
    op1_ap: false,
    res_add: false,
    res_mul: false,
    pc_abs: false,
    pc_rel: false,
    pc_jnz: false,
    ap_add: false,
    ap_add1: false,
    op_call: false,
    op_ret: false,
    op_assert: false,
};

/// The word with dst and op0 one cell below fp, where a statement makes no use of them.
const UNUSED: Word = Word {
    off_dst: -1,
    off_op0: -1,
    off_op1: 0,
    flags: Flags {
        dst_fp: true,
        op0_fp: true,
        ..NO_FLAGS
    },
};

/// The word of a statement, and the number that follows it as its immediate.
#[tactic(auto, unfolding(crate::specs::Words::encoding))]
pub fn to_word(s: &Stmt) -> (Word, Option<Felt>)
    ensures { result ≡ encoding s.now }
{
    match *s {
        Stmt::Assert { dst, res, inc } => {
            let flags = Flags {
                op_assert: true,
                ap_add1: inc,
                ..UNUSED.flags
            };
            with_operand(with_dst(Word { flags, ..UNUSED }, dst), res)
        }
        Stmt::Jump { abs, res, inc } => {
            let flags = Flags {
                pc_abs: abs,
                pc_rel: !abs,
                ap_add1: inc,
                ..UNUSED.flags
            };
            with_operand(Word { flags, ..UNUSED }, res)
        }
        Stmt::Branch { cond, to, inc } => {
            let flags = Flags {
                pc_jnz: true,
                ap_add1: inc,
                ..UNUSED.flags
            };
            with_term(with_dst(Word { flags, ..UNUSED }, cond), to)
        }
        Stmt::Call { abs, to } => with_term(call_word(abs), to),
        Stmt::Ret => (ret_word(), None),
        Stmt::AddAp { res } => {
            let flags = Flags {
                ap_add: true,
                ..UNUSED.flags
            };
            with_operand(Word { flags, ..UNUSED }, res)
        }
    }
}

/// The word of a call, but for its op1.
fn call_word(abs: bool) -> Word
    ensures { result
        ≡ record { off_dst = pos 0; off_op0 = pos 1; off_op1 = pos 0; flags = record no_flags { pc_abs = abs; pc_rel = not abs; op_call = true } } }
{
    Word {
        off_dst: 0,
        off_op0: 1,
        off_op1: 0,
        flags: Flags {
            pc_abs: abs,
            pc_rel: !abs,
            op_call: true,
            ..NO_FLAGS
        },
    }
}

/// The word of a return.
#[tactic(auto, unfolding(crate::specs::Words::encoding))]
fn ret_word() -> Word
    ensures { result ≡ (encoding Stmt.Ret).0 }
{
    Word {
        off_dst: -2,
        off_op0: -1,
        off_op1: -1,
        flags: Flags {
            dst_fp: true,
            op0_fp: true,
            op1_fp: true,
            pc_abs: true,
            op_ret: true,
            ..NO_FLAGS
        },
    }
}

/// Whether the register is fp.
fn is_fp(reg: Reg) -> bool
    ensures { result ≡ is_fp reg }
{
    match reg {
        Reg::Ap => false,
        Reg::Fp => true,
    }
}

/// The word with the cell as dst.
fn with_dst(word: Word, cell: Cell) -> Word
    ensures { result ≡ with_dst word cell }
{
    let flags = Flags {
        dst_fp: is_fp(cell.reg),
        ..word.flags
    };
    Word {
        off_dst: cell.off,
        flags,
        ..word
    }
}

/// The word with the cell as op0.
fn with_op0(word: Word, cell: Cell) -> Word
    ensures { result ≡ with_op0 word cell }
{
    let flags = Flags {
        op0_fp: is_fp(cell.reg),
        ..word.flags
    };
    Word {
        off_op0: cell.off,
        flags,
        ..word
    }
}

/// The word with the cell as op1.
fn with_op1(word: Word, cell: Cell) -> Word
    ensures { result ≡ with_op1 word cell }
{
    let flags = Flags {
        op1_fp: is_fp(cell.reg),
        op1_ap: !is_fp(cell.reg),
        ..word.flags
    };
    Word {
        off_op1: cell.off,
        flags,
        ..word
    }
}

/// The word with the number after it as op1.
fn with_immediate(word: Word) -> Word
    ensures { result ≡ with_immediate word }
{
    let flags = Flags {
        op1_imm: true,
        ..word.flags
    };
    Word {
        off_op1: 1,
        flags,
        ..word
    }
}

/// The word that takes op1 from the term, and the immediate.
fn with_term(word: Word, term: Term) -> (Word, Option<Felt>)
    ensures { result ≡ with_term word term }
{
    match term {
        Term::Cell(cell) => (with_op1(word, cell), None),
        Term::Imm(value) => (with_immediate(word), Some(value)),
    }
}

/// The word that computes the operand, and the immediate.
fn with_operand(word: Word, operand: Operand) -> (Word, Option<Felt>)
    ensures { result ≡ with_operand word operand }
{
    match operand {
        Operand::Deref(cell) => (with_op1(word, cell), None),
        Operand::Double(cell, offset) => {
            let off_op1 = offset;
            (
                Word {
                    off_op1,
                    ..with_op0(word, cell)
                },
                None,
            )
        }
        Operand::Imm(value) => (with_immediate(word), Some(value)),
        Operand::Sum(cell, term) => {
            let word = with_op0(word, cell);
            let flags = Flags {
                res_add: true,
                ..word.flags
            };
            with_term(Word { flags, ..word }, term)
        }
        Operand::Product(cell, term) => {
            let word = with_op0(word, cell);
            let flags = Flags {
                res_mul: true,
                ..word.flags
            };
            with_term(Word { flags, ..word }, term)
        }
    }
}
