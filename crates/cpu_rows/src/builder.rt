//! The row of a step.
#![tactic(auto, unfolding(casm_word::specs::Transition::registers))]

ghost use Rattle.std.specs.Prelude.{◌≡◌, ◌<◌, ◌/◌, ◌%◌, ◌^◌, ◌↔◌, ℕ, IsSome, IsNone, IfSome};
ghost use Rattle.casm_word.specs.Word.{decoding};
ghost use Rattle.casm_word.specs.Transition.{registers, dst_address, op0_address, op1_address, res, next};
ghost use Rattle.cpu_rows.specs.Columns.{columns};
ghost use Rattle.goldilocks.specs.Felts.{numbers};
ghost use Rattle.cpu_rows.specs.Equations.{fault};
ghost use Rattle.cpu_rows.specs.Steps.{bits_from, tilde_of, IsInverseOrZero, IsRes, row_of, IsRowOf, Tells};

use crate::Row;
use crate::equations::when;
use casm_word::{Flags, Reads, State, Word, decode};
use goldilocks::Felt;

/// Where the operands of an instruction lie, and their values.
#[derive(Clone, Copy)]
struct Operands {
    dst_addr: Felt,
    op0_addr: Felt,
    op1_addr: Felt,
    dst: Felt,
    op0: Felt,
    op1: Felt,
}

/// The row of the step from the state `from` to the state `to`, in the memory `m`; `None` exactly where the step isn't
/// to `to`.
///
/// Its column res has what the instruction computes; under a conditional jump the inverse of dst, or 0 where dst is 0.
pub fn build_row<M: Reads>(m: &M, from: State, to: State) -> Option<Row>
    ensures some { IsSome result ↔ (next (M.cells m.now) (registers from) ≡ Some (registers to)) }
    ensures row { IfSome result (λ r. IsRowOf (M.cells m.now) (registers from) (columns r)) }

    // It has no fault, and its cells are those of the memory.
    ensures tells { IfSome result (λ r. Tells (M.cells m.now) (registers from) (registers to) (columns r)) }
    ensures no_fault { IfSome result (λ r. fault (columns r) (registers to) ≡ None) }
{
    let inst = m.read(from.pc)?;
    let word = decode(inst.number).ok()?;
    let operands = read_operands(m, from, word)?;
    let row = row_with(from, inst, word, operands);
    // The other equations hold by how the row is made.
    if row.step_fault(word.flags, to).is_some() {
        return None;
    }
    Some(row)
}

/// The operands of the instruction `word` in the state `from`, where their cells are there.
fn read_operands<M: Reads>(m: &M, from: State, word: Word) -> Option<Operands>
    ensures dst_addr { IfSome result (λ o. o.dst_addr.number ≡ dst_address word (registers from)) }
    ensures op0_addr { IfSome result (λ o. o.op0_addr.number ≡ op0_address word (registers from)) }
    ensures op1_addr { IfSome result (λ o. o.op1_addr.number ≡ op1_address word (registers from) o.op0.number) }
    ensures dst { IfSome result (λ o. M.cells m.now o.dst_addr.number ≡ Some o.dst.number) }
    ensures op0 { IfSome result (λ o. M.cells m.now o.op0_addr.number ≡ Some o.op0.number) }
    ensures op1 { IfSome result (λ o. M.cells m.now o.op1_addr.number ≡ Some o.op1.number) }
    ensures none { IsNone result → (n : ℕ) → M.cells m.now from.pc.number ≡ Some n → decoding n ≡ Ok word →
        next (M.cells m.now) (registers from) ≡ None }
{
    let dst_addr = word.dst_address(from);
    let dst = m.read(dst_addr)?;
    let op0_addr = word.op0_address(from);
    let op0 = m.read(op0_addr)?;
    let op1_addr = word.op1_address(from, op0);
    let op1 = m.read(op1_addr)?;
    Some(Operands {
        dst_addr,
        op0_addr,
        op1_addr,
        dst,
        op0,
        op1,
    })
}

/// The row of the instruction `word`, which is `inst`, with these operands.
fn row_with(from: State, inst: Felt, word: Word, operands: Operands) -> Row
    requires dst_addr { operands.dst_addr.number ≡ dst_address word (registers from) }
    requires op0_addr { operands.op0_addr.number ≡ op0_address word (registers from) }
    requires op1_addr { operands.op1_addr.number ≡ op1_address word (registers from) operands.op0.number }
    ensures columns { columns result ≡ row_of (registers from) inst.number word
        operands.dst.number operands.op0.number operands.op1.number result.res.number }
    ensures res { IsRes word.flags operands.dst.number operands.op0.number operands.op1.number result.res.number }
{
    let res = res_column(word.flags, operands);
    let t0 = when(word.flags.pc_jnz, operands.dst);
    Row {
        pc: from.pc,
        ap: from.ap,
        fp: from.fp,
        inst,
        tilde: tilde_of(inst),
        off_dst: offset_at(inst, 0),
        off_op0: offset_at(inst, 16),
        off_op1: offset_at(inst, 32),
        dst_addr: operands.dst_addr,
        op0_addr: operands.op0_addr,
        op1_addr: operands.op1_addr,
        dst: operands.dst,
        op0: operands.op0,
        op1: operands.op1,
        mul: operands.op0.mul(operands.op1),
        res,
        t0,
        t1: t0.mul(res),
    }
}

/// What stands in the column res.
fn res_column(flags: Flags, operands: Operands) -> Felt
    ensures { IsRes flags operands.dst.number operands.op0.number operands.op1.number result.number }
{
    if flags.pc_jnz {
        inverse_or_zero(operands.dst)
    } else {
        flags.res(operands.op0, operands.op1)
    }
}

/// The inverse of a number, or 0 for 0.
fn inverse_or_zero(number: Felt) -> Felt
    ensures { IsInverseOrZero number.number result.number }
{
    number.inverse().unwrap_or(Felt::ZERO)
}

/// The tilde values of the word `inst`.
fn tilde_of(inst: Felt) -> [Felt; 16]
    ensures { numbers result ≡ tilde_of inst.number }
{
    [
        bits_from(inst, 48),
        bits_from(inst, 49),
        bits_from(inst, 50),
        bits_from(inst, 51),
        bits_from(inst, 52),
        bits_from(inst, 53),
        bits_from(inst, 54),
        bits_from(inst, 55),
        bits_from(inst, 56),
        bits_from(inst, 57),
        bits_from(inst, 58),
        bits_from(inst, 59),
        bits_from(inst, 60),
        bits_from(inst, 61),
        bits_from(inst, 62),
        bits_from(inst, 63),
    ]
}

/// What is left of the word `inst` above its bit `place`.
fn bits_from(inst: Felt, place: u32) -> Felt
    requires { place < 64 }
    ensures { result.number ≡ bits_from inst.number place }
{
    Felt {
        number: inst.number >> place,
    }
}

/// The offset whose sixteen bits begin at bit `place` of the word `inst`, with 2^15 added.
#[tactic(auto, using(std::proofs::lemmas::Nat::and_mask))]
fn offset_at(inst: Felt, place: u32) -> Felt
    requires { place < 64 }
    ensures { result.number ≡ bits_from inst.number place % 2 ^ 16 }
{
    Felt {
        number: inst.number >> place & 0xffff,
    }
}
