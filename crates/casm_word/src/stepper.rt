//! One step of the machine.
#![tactic(auto, unfolding(crate::specs::Transition::registers, crate::specs::Transition::outcome_of))]

ghost use Rattle.std.specs.Prelude.{◌≡◌};
ghost use Rattle.casm_word.specs.Transition.{registers, size, moved, dst_address, op0_address, op1_address, res};
ghost use Rattle.casm_word.specs.Transition.{following_pc, next_pc, next_ap, next_fp};
ghost use Rattle.casm_word.specs.Transition.{next, outcome, outcome_by, outcome_of, reached};

use crate::decoder::decode;
use crate::{Flags, Reads, State, StepResult, Word};
use goldilocks::Felt;

/// One step of the machine from the state `s`, in the memory `m`.
///
/// The first of these that comes up is answered. It is [`StepResult::NoCell`] where the cell at pc is missing, and
/// [`StepResult::BadWord`] where it is no instruction. Then it is [`StepResult::NoCell`] where the cell of dst, op0 or
/// op1 is missing. Then come [`StepResult::CallPc`], [`StepResult::CallFp`] and [`StepResult::NotEqual`]. Else it is
/// [`StepResult::Next`].
pub fn step<M: Reads>(m: &M, s: State) -> StepResult
    ensures outcome { outcome_of result ≡ outcome (M.cells m.now) (registers s) }
    ensures next { reached result ≡ next (M.cells m.now) (registers s) }
{
    let Some(cell) = m.read(s.pc) else {
        return StepResult::NoCell(s.pc);
    };
    let word = match decode(cell.number) {
        Ok(word) => word,
        Err(fault) => return StepResult::BadWord(fault),
    };
    let dst_address = word.dst_address(s);
    let Some(dst) = m.read(dst_address) else {
        return StepResult::NoCell(dst_address);
    };
    let op0_address = word.op0_address(s);
    let Some(op0) = m.read(op0_address) else {
        return StepResult::NoCell(op0_address);
    };
    let op1_address = word.op1_address(s, op0);
    let Some(op1) = m.read(op1_address) else {
        return StepResult::NoCell(op1_address);
    };
    word.flags.apply(s, dst, op0, op1)
}

impl Flags {
    /// How many cells the instruction takes.
    fn size(self) -> Felt
        ensures { result.number ≡ size self }
    {
        if self.op1_imm {
            Felt { number: 2 }
        } else {
            Felt { number: 1 }
        }
    }

    /// The pc of the instruction that lies after the one at `s.pc`.
    fn following_pc(self, s: State) -> Felt
        ensures { result.number ≡ following_pc self (registers s) }
    {
        s.pc.add(self.size())
    }

    /// What the instruction computes of its operands: their sum, their product, or op1.
    pub fn res(self, op0: Felt, op1: Felt) -> Felt
        ensures { result.number ≡ res self op0.number op1.number }
    {
        if self.res_add {
            op0.add(op1)
        } else if self.res_mul {
            op0.mul(op1)
        } else {
            op1
        }
    }

    /// The pc after the instruction.
    fn next_pc(self, s: State, dst: Felt, op0: Felt, op1: Felt) -> Felt
        ensures { result.number ≡ next_pc self (registers s) dst.number op0.number op1.number }
    {
        if self.pc_abs {
            self.res(op0, op1)
        } else if self.pc_rel {
            s.pc.add(self.res(op0, op1))
        } else if self.pc_jnz && dst.number != 0 {
            s.pc.add(op1)
        } else {
            self.following_pc(s)
        }
    }

    /// The ap after the instruction.
    fn next_ap(self, s: State, op0: Felt, op1: Felt) -> Felt
        ensures { result.number ≡ next_ap self (registers s) op0.number op1.number }
    {
        if self.op_call {
            s.ap.add(Felt { number: 2 })
        } else if self.ap_add {
            s.ap.add(self.res(op0, op1))
        } else if self.ap_add1 {
            s.ap.add(Felt { number: 1 })
        } else {
            s.ap
        }
    }

    /// The fp after the instruction.
    fn next_fp(self, s: State, dst: Felt) -> Felt
        ensures { result.number ≡ next_fp self (registers s) dst.number }
    {
        if self.op_call {
            s.ap.add(Felt { number: 2 })
        } else if self.op_ret {
            dst
        } else {
            s.fp
        }
    }

    /// What the instruction comes to, once its operands are read.
    fn apply(self, s: State, dst: Felt, op0: Felt, op1: Felt) -> StepResult
        ensures { outcome_of result ≡ outcome_by self (registers s) dst.number op0.number op1.number }
    {
        if self.op_call && op0.number != self.following_pc(s).number {
            return StepResult::CallPc;
        }
        if self.op_call && dst.number != s.fp.number {
            return StepResult::CallFp;
        }
        if self.op_assert && dst.number != self.res(op0, op1).number {
            return StepResult::NotEqual;
        }
        StepResult::Next(State {
            pc: self.next_pc(s, dst, op0, op1),
            ap: self.next_ap(s, op0, op1),
            fp: self.next_fp(s, dst),
        })
    }
}

impl Word {
    /// Where dst lies, in the state `s`.
    pub fn dst_address(self, s: State) -> Felt
        ensures { result.number ≡ dst_address self (registers s) }
    {
        moved_by(if self.flags.dst_fp { s.fp } else { s.ap }, self.off_dst)
    }

    /// Where op0 lies, in the state `s`.
    pub fn op0_address(self, s: State) -> Felt
        ensures { result.number ≡ op0_address self (registers s) }
    {
        moved_by(if self.flags.op0_fp { s.fp } else { s.ap }, self.off_op0)
    }

    /// Where op1 lies, in the state `s`, given op0.
    pub fn op1_address(self, s: State, op0: Felt) -> Felt
        ensures { result.number ≡ op1_address self (registers s) op0.number }
    {
        let base = if self.flags.op1_imm {
            s.pc
        } else if self.flags.op1_fp {
            s.fp
        } else if self.flags.op1_ap {
            s.ap
        } else {
            op0
        };
        moved_by(base, self.off_op1)
    }
}

/// The address `base` moved by `offset`.
fn moved_by(base: Felt, offset: i16) -> Felt
    ensures { result.number ≡ moved base.number offset }
{
    base.add(Felt::of_signed(i64::from(offset)))
}
