//! The equations of a row, evaluated.

ghost use Rattle.std.specs.Prelude.{◌≡◌, ◌≢◌, ◌<◌, ◌+◌, if◌then◌else◌, [], ◌∷◌, ◌↔◌, IsNone, IfSome, IfOk, IfErr, MatchResult, take, drop, slice_range, option_map};
ghost use Rattle.goldilocks.specs.Field.{field_mul};
ghost use Rattle.casm_word.specs.Word.{two_of, first_broken};
ghost use Rattle.casm_word.specs.Transition.{Registers, registers, size};
ghost use Rattle.cpu_rows.specs.Columns.{columns};
ghost use Rattle.cpu_rows.specs.Equations.{C, ◌≐◌, ◌⊖◌, ◌⊙◌, flag, equations, failing_number, fault, Meets, IsLeastFailing};
ghost use Rattle.cpu_rows.specs.Steps.{zero_or_one, HasFlags, HasSmallOffsets, IsStep, equation_of};

use crate::Row;
use casm_word::{Flags, State};
use goldilocks::Felt;

/// 2^15, which is added to each offset.
const BIAS: Felt = Felt { number: 1 << 15 };

/// 2^16, by which the offset of op0 is moved in a word.
const OP0_PLACE: Felt = Felt { number: 1 << 16 };

/// 2^32, by which the offset of op1 is moved in a word.
const OP1_PLACE: Felt = Felt { number: 1 << 32 };

/// 2^48, by which the flags are moved in a word.
const FLAGS_PLACE: Felt = Felt { number: 1 << 48 };

/// The number 2 of the field.
const TWO: Felt = Felt { number: 2 };

/// The least number of C1 to C39 that fails, for a row and the next state; `None` exactly where none does.
pub fn row_fault(r: &Row, next: State) -> Option<u8>
    ensures value { result ≡ fault (columns r.now) (registers next) }
    ensures none { IsNone result ↔ Meets (columns r.now) (registers next) }
    ensures least { IfSome result (IsLeastFailing (equations (columns r.now) (registers next))) }

    // A row with no fault is a step, in every memory that has its four cells.
    ensures step { IsNone result → HasSmallOffsets (columns r.now) → IsStep (columns r.now) (registers next) }
{
    let flags = match r.flags() {
        Ok(flags) => flags,
        Err(number) => return Some(number),
    };
    r.word_fault()
        .or(r.address_fault(flags))
        .or(r.operand_fault(flags))
        .or(r.step_fault(flags, next))
        .or(shape_fault(flags))
}

impl Row {
    /// Flag `place`, or the number of its equation where it is neither 0 nor 1.
    fn flag(&self, place: usize) -> Result<bool, u8>
        requires { place < 15 }
        ensures set { IfOk result (λ set. flag (columns self.now) place ≡ zero_or_one set) }
        ensures number { IfErr result (λ number. number ≡ place + 1) }
        ensures fails { IfErr result (λ _. 1 < flag (columns self.now) place) }
    {
        let rest = self.tilde[place + 1];
        let flag = self.tilde[place].sub(rest.add(rest)).number;
        if flag > 1 {
            return Err(place as u8 + 1);
        }
        Ok(flag == 1)
    }

    /// The flags, or the least number of C1 to C15 that fails.
    fn flags(&self) -> Result<Flags, u8>
        ensures { (after : Registers) → MatchResult result (λ f. HasFlags (columns self.now) f)
            (λ k. failing_number (take 15 (equations (columns self.now) after)) ≡ Some k) }
    {
        let mut set = [false; 15];
        for place in 0..15 {
            set[place] = self.flag(place)?;
        }
        Ok(Flags {
            dst_fp: set[0],
            op0_fp: set[1],
            op1_imm: set[2],
            op1_fp: set[3],
            op1_ap: set[4],
            res_add: set[5],
            res_mul: set[6],
            pc_abs: set[7],
            pc_rel: set[8],
            pc_jnz: set[9],
            ap_add: set[10],
            ap_add1: set[11],
            op_call: set[12],
            op_ret: set[13],
            op_assert: set[14],
        })
    }

    /// C16 and C17: the word is its offsets and flags.
    fn word_fault(&self) -> Option<u8>
        ensures { (after : Registers) → result ≡ failing_number (slice_range (equations (columns self.now) after) 15 17) }
    {
        let word = self
            .off_dst
            .add(OP0_PLACE.mul(self.off_op0))
            .add(OP1_PLACE.mul(self.off_op1))
            .add(FLAGS_PLACE.mul(self.tilde[0]));
        unmet(16, self.tilde[15], Felt::ZERO).or(unmet(17, self.inst, word))
    }

    /// C18 to C20: where the operands lie.
    fn address_fault(&self, flags: Flags) -> Option<u8>
        requires { HasFlags (columns self.now) flags }
        ensures { (after : Registers) → result ≡ failing_number (slice_range (equations (columns self.now) after) 17 20) }
    {
        let op1_base = when(flags.op1_imm, self.pc)
            .add(when(flags.op1_ap, self.ap))
            .add(when(flags.op1_fp, self.fp))
            .add(one_less(flags.op1_imm, flags.op1_ap, flags.op1_fp).mul(self.op0));
        unmet(
            18,
            self.dst_addr,
            self.base(flags.dst_fp).add(self.off_dst).sub(BIAS),
        )
        .or(unmet(
            19,
            self.op0_addr,
            self.base(flags.op0_fp).add(self.off_op0).sub(BIAS),
        ))
        .or(unmet(20, self.op1_addr, op1_base.add(self.off_op1).sub(BIAS)))
    }

    /// fp or ap.
    fn base(&self, by_fp: bool) -> Felt
        ensures { result.number ≡ (if by_fp then self.now.fp.number else self.now.ap.number) }
    {
        if by_fp { self.fp } else { self.ap }
    }

    /// C21 to C24: the product of the operands, what the instruction computes, and the two helpers of a conditional
    /// jump.
    fn operand_fault(&self, flags: Flags) -> Option<u8>
        requires { HasFlags (columns self.now) flags }
        ensures { (after : Registers) → result ≡ failing_number (slice_range (equations (columns self.now) after) 20 24) }
    {
        let computed = when(flags.res_add, self.op0.add(self.op1))
            .add(when(flags.res_mul, self.mul))
            .add(one_less(flags.res_add, flags.res_mul, flags.pc_jnz).mul(self.op1));
        unmet(21, self.mul, self.op0.mul(self.op1))
            .or(unmet(22, when(!flags.pc_jnz, self.res), computed))
            .or(unmet(23, self.t0, when(flags.pc_jnz, self.dst)))
            .or(unmet(24, self.t1, self.t0.mul(self.res)))
    }

    /// C25 to C31: the next state, and what an opcode demands.
    pub(crate) fn step_fault(&self, flags: Flags, next: State) -> Option<u8>
        requires { HasFlags (columns self.now) flags }
        ensures { result ≡ failing_number (slice_range (equations (columns self.now) (registers next)) 24 31) }
    {
        self.next_state_fault(flags, next)
            .or(self.opcode_fault(flags))
    }

    /// C25 to C28: the next state.
    fn next_state_fault(&self, flags: Flags, next: State) -> Option<u8>
        requires { HasFlags (columns self.now) flags }
        ensures { result ≡ failing_number (slice_range (equations (columns self.now) (registers next)) 24 28) }
    {
        self.next_pc_fault(flags, next.pc)
            .or(self.next_frame_fault(flags, next))
    }

    /// C25 and C26: the next pc.
    fn next_pc_fault(&self, flags: Flags, next_pc: Felt) -> Option<u8>
        requires { HasFlags (columns self.now) flags }
        ensures { (after : Registers) → after.pc ≡ next_pc.number →
            result ≡ failing_number (slice_range (equations (columns self.now) after) 24 26) }
    {
        let further = next_pc.sub(self.pc);
        let left = self
            .t0
            .mul(further.sub(self.op1))
            .add(when(!flags.pc_jnz, next_pc));
        let right = one_less(flags.pc_abs, flags.pc_rel, flags.pc_jnz)
            .mul(self.pc.add(size(flags)))
            .add(when(flags.pc_abs, self.res))
            .add(when(flags.pc_rel, self.pc.add(self.res)));
        unmet(
            25,
            self.t1
                .sub(digit(flags.pc_jnz))
                .mul(further.sub(size(flags))),
            Felt::ZERO,
        )
        .or(unmet(26, left.sub(right), Felt::ZERO))
    }

    /// C27 and C28: the next ap and fp.
    fn next_frame_fault(&self, flags: Flags, next: State) -> Option<u8>
        requires { HasFlags (columns self.now) flags }
        ensures { result ≡ failing_number (slice_range (equations (columns self.now) (registers next)) 26 28) }
    {
        let ap = self
            .ap
            .add(when(flags.ap_add, self.res))
            .add(digit(flags.ap_add1))
            .add(when(flags.op_call, TWO));
        let fp = when(flags.op_ret, self.dst)
            .add(when(flags.op_call, self.ap.add(TWO)))
            .add(
                Felt::ONE
                    .sub(digit(flags.op_ret))
                    .sub(digit(flags.op_call))
                    .mul(self.fp),
            );
        unmet(27, next.ap, ap).or(unmet(28, next.fp, fp))
    }

    /// C29 to C31: what an opcode demands.
    fn opcode_fault(&self, flags: Flags) -> Option<u8>
        requires { HasFlags (columns self.now) flags }
        ensures { (after : Registers) → result ≡ failing_number (slice_range (equations (columns self.now) after) 28 31) }
    {
        unmet(29, when(flags.op_call, self.dst.sub(self.fp)), Felt::ZERO)
            .or(unmet(
                30,
                when(flags.op_call, self.op0.sub(self.pc).sub(size(flags))),
                Felt::ZERO,
            ))
            .or(unmet(
                31,
                when(flags.op_assert, self.dst.sub(self.res)),
                Felt::ZERO,
            ))
    }
}

/// C32 to C39: no two flags that exclude each other.
fn shape_fault(flags: Flags) -> Option<u8>
    ensures { result ≡ option_map equation_of (first_broken flags) }
{
    let opcode = flags.op_call | flags.op_ret | flags.op_assert;
    let moves_ap = flags.ap_add | flags.ap_add1;
    excluded(32, are_two(flags.op1_imm, flags.op1_fp, flags.op1_ap))
        .or(excluded(33, are_two(flags.res_add, flags.res_mul, flags.pc_jnz)))
        .or(excluded(34, are_two(flags.pc_abs, flags.pc_rel, flags.pc_jnz)))
        .or(excluded(35, are_two(flags.op_call, flags.op_ret, flags.op_assert)))
        .or(excluded(36, flags.ap_add & flags.ap_add1))
        .or(excluded(37, flags.pc_jnz & opcode))
        .or(excluded(38, flags.pc_jnz & flags.ap_add))
        .or(excluded(39, flags.op_call & moves_ap))
}

/// The equation of this number, where its sides differ.
#[tactic(auto, unfolding(crate::specs::Equations::failing_number, crate::specs::Equations::holds))]
fn unmet(number: u8, left: Felt, right: Felt) -> Option<u8>
    ensures { result ≡ failing_number (C number (left.number ≐ right.number) ∷ []) }
{
    if left.number == right.number {
        None
    } else {
        Some(number)
    }
}

/// The equation of this number, where its flags are set together.
fn excluded(number: u8, together: bool) -> Option<u8>
    ensures { result ≡ (if together then Some number else None) }
{
    if together { Some(number) } else { None }
}

/// Whether at least two of the three are set.
fn are_two(a: bool, b: bool, c: bool) -> bool
    ensures { result ≡ two_of a b c }
{
    a && b || a && c || b && c
}

/// The flag as a number.
fn digit(flag: bool) -> Felt
    ensures { result.number ≡ zero_or_one flag }
{
    if flag { Felt::ONE } else { Felt::ZERO }
}

/// The product of the flag and the number.
pub(crate) fn when(flag: bool, number: Felt) -> Felt
    ensures { result.number ≡ field_mul (zero_or_one flag) number.number }
{
    if flag { number } else { Felt::ZERO }
}

/// 1 less the three flags.
fn one_less(a: bool, b: bool, c: bool) -> Felt
    ensures { result.number ≡ (1 ⊖ zero_or_one a ⊖ zero_or_one b ⊖ zero_or_one c) }
{
    Felt::ONE.sub(digit(a)).sub(digit(b)).sub(digit(c))
}

/// How many cells the instruction takes.
fn size(flags: Flags) -> Felt
    ensures { result.number ≡ size flags }
{
    if flags.op1_imm { TWO } else { Felt::ONE }
}
