//! The statement of a word.

ghost use Rattle.std.specs.Prelude.{◌≡◌, ◌↔◌, IsTrue, Some};
ghost use Rattle.casm_statements.specs.Words.{encoding};
ghost use Rattle.casm_statements.specs.Guesses.{cell_at, term_in, operand_in, stmt_in, flag_list};

use crate::encoding::to_word;
use crate::{Cell, Operand, Reg, Stmt, Term};
use casm_word::{Flags, Word};
use goldilocks::Felt;

/// The statement that is written as the word `w` with the immediate `imm`, or `None` exactly where there is none.
pub fn of_word(w: &Word, imm: Option<Felt>) -> Option<Stmt>
    ensures { (s : Stmt) → (result ≡ Some s) ↔ (encoding s ≡ (w.now, imm)) }
{
    let s = stmt_in(*w, imm);
    let (word, value) = to_word(&s);
    if is_same_word(word, *w) && is_same_immediate(value, imm) {
        Some(s)
    } else {
        None
    }
}

/// Whether the words are one.
fn is_same_word(a: Word, b: Word) -> bool
    ensures { IsTrue result ↔ (a ≡ b) }
{
    a.off_dst == b.off_dst
        && a.off_op0 == b.off_op0
        && a.off_op1 == b.off_op1
        && is_same_flags(a.flags, b.flags)
}

/// Whether the flags are the same.
fn is_same_flags(a: Flags, b: Flags) -> bool
    ensures { IsTrue result ↔ (a ≡ b) }
{
    flag_list(a) == flag_list(b)
}

/// Whether the immediates are one.
fn is_same_immediate(a: Option<Felt>, b: Option<Felt>) -> bool
    ensures { IsTrue result ↔ (a ≡ b) }
{
    match a {
        None => b.is_none(),
        Some(value) => match b {
            None => false,
            Some(other) => value.number == other.number,
        },
    }
}

/// The flags in the order of their bits.
fn flag_list(f: Flags) -> [bool; 15]
    ensures { result ≡ flag_list f }
{
    [
        f.dst_fp,
        f.op0_fp,
        f.op1_imm,
        f.op1_fp,
        f.op1_ap,
        f.res_add,
        f.res_mul,
        f.pc_abs,
        f.pc_rel,
        f.pc_jnz,
        f.ap_add,
        f.ap_add1,
        f.op_call,
        f.op_ret,
        f.op_assert,
    ]
}

/// The cell at this offset from fp, or from ap.
fn cell_at(fp: bool, off: i16) -> Cell
    ensures { result ≡ cell_at fp off }
{
    let reg = if fp { Reg::Fp } else { Reg::Ap };
    Cell { reg, off }
}

/// The term that a word which has one has as op1.
fn term_in(w: Word, imm: Option<Felt>) -> Term
    ensures { result ≡ term_in w imm }
{
    match imm {
        Some(value) => Term::Imm(value),
        None => Term::Cell(cell_at(w.flags.op1_fp, w.off_op1)),
    }
}

/// The operand that a word which has one computes.
fn operand_in(w: Word, imm: Option<Felt>) -> Operand
    ensures { result ≡ operand_in w imm }
{
    let op0 = cell_at(w.flags.op0_fp, w.off_op0);
    if w.flags.res_add {
        return Operand::Sum(op0, term_in(w, imm));
    }
    if w.flags.res_mul {
        return Operand::Product(op0, term_in(w, imm));
    }
    match imm {
        Some(value) => Operand::Imm(value),
        None => {
            if w.flags.op1_fp || w.flags.op1_ap {
                Operand::Deref(cell_at(w.flags.op1_fp, w.off_op1))
            } else {
                Operand::Double(op0, w.off_op1)
            }
        }
    }
}

/// The only statement that may be written as this word and immediate.
#[tactic(auto, unfolding(crate::specs::Guesses::stmt_in))]
fn stmt_in(w: Word, imm: Option<Felt>) -> Stmt
    ensures { result ≡ stmt_in w imm }
{
    let dst = cell_at(w.flags.dst_fp, w.off_dst);
    let inc = w.flags.ap_add1;
    let abs = w.flags.pc_abs;
    if w.flags.op_assert {
        let res = operand_in(w, imm);
        Stmt::Assert { dst, res, inc }
    } else if w.flags.op_call {
        let to = term_in(w, imm);
        Stmt::Call { abs, to }
    } else if w.flags.op_ret {
        Stmt::Ret
    } else if w.flags.pc_jnz {
        let to = term_in(w, imm);
        Stmt::Branch { cond: dst, to, inc }
    } else if w.flags.ap_add {
        let res = operand_in(w, imm);
        Stmt::AddAp { res }
    } else {
        let res = operand_in(w, imm);
        Stmt::Jump { abs, res, inc }
    }
}
