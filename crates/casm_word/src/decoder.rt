//! The instruction that a number says.
#![tactic(auto)]

ghost use Rattle.std.specs.Prelude.{◌≡◌, ◌<◌, ◌≤◌, ◌↔◌, IsOk, IfOk};
ghost use Rattle.casm_word.specs.Word.{bit, offset, flags_of, word_of, two_of, breaks, first_broken, decoding, word_bound, word_number};

use crate::{Flags, OFFSET_BIAS, Shape, Word, WordFault};

/// All shapes, in the order in which they are tested.
const SHAPES: [Shape; 8] = [
    Shape::Op1,
    Shape::Res,
    Shape::Pc,
    Shape::Opcode,
    Shape::ApBoth,
    Shape::JnzOpcode,
    Shape::JnzAp,
    Shape::CallAp,
];

/// The instruction that the number `v` says.
///
/// [`WordFault::HighBit`] exactly where `v` is 2^63 or more, and else [`WordFault::Undefined`] exactly where its flags
/// break a shape: the first one.
#[tactic(auto, unfolding(crate::specs::Word::decoding, crate::specs::Word::word_of))]
pub fn decode(v: u64) -> Result<Word, WordFault>
    ensures value { result ≡ decoding v }
    ensures high_bit { (result ≡ Err WordFault.HighBit) ↔ (word_bound ≤ v) }
    ensures undefined { (s : Shape) → (result ≡ Err (WordFault.Undefined s))
        ↔ ((v < word_bound) × (first_broken (flags_of v) ≡ Some s)) }
    ensures defined { IsOk result ↔ ((v < word_bound) × (first_broken (flags_of v) ≡ None)) }
    ensures word { IfOk result (λ w. w ≡ word_of v) }
    ensures encoded { IfOk result (λ w. word_number w ≡ v) }
{
    if v >> 63 != 0 {
        return Err(WordFault::HighBit);
    }
    let flags = flags_in(v);
    if let Some(shape) = flags.first_broken() {
        return Err(WordFault::Undefined(shape));
    }
    Ok(Word {
        off_dst: offset_at(v, 0),
        off_op0: offset_at(v, 16),
        off_op1: offset_at(v, 32),
        flags,
    })
}

/// Bit `place` of `v`.
#[tactic(auto, using(std::proofs::lemmas::Nat::Bits::shr_and_one))]
fn is_set(v: u64, place: u32) -> bool
    requires { place < 64 }
    ensures { result ≡ bit v place }
{
    v >> place & 1 == 1
}

/// The offset whose sixteen bits begin at bit `place` of `v`.
#[tactic(auto, using(std::proofs::lemmas::Nat::and_mask))]
fn offset_at(v: u64, place: u32) -> i16
    requires { place < 64 }
    ensures { result ≡ offset v place }
{
    ((v >> place & 0xffff) as i32 - OFFSET_BIAS) as i16
}

/// The flags of the word `v`.
#[tactic(auto, unfolding(crate::specs::Word::flags_of))]
fn flags_in(v: u64) -> Flags
    ensures { result ≡ flags_of v }
{
    Flags {
        dst_fp: is_set(v, 48),
        op0_fp: is_set(v, 49),
        op1_imm: is_set(v, 50),
        op1_fp: is_set(v, 51),
        op1_ap: is_set(v, 52),
        res_add: is_set(v, 53),
        res_mul: is_set(v, 54),
        pc_abs: is_set(v, 55),
        pc_rel: is_set(v, 56),
        pc_jnz: is_set(v, 57),
        ap_add: is_set(v, 58),
        ap_add1: is_set(v, 59),
        op_call: is_set(v, 60),
        op_ret: is_set(v, 61),
        op_assert: is_set(v, 62),
    }
}

/// Whether at least two of the three hold.
fn at_least_two(a: bool, b: bool, c: bool) -> bool
    ensures { result ≡ two_of a b c }
{
    a && b || a && c || b && c
}

impl Flags {
    /// Whether the flags break the shape.
    #[tactic(auto, unfolding(crate::specs::Word::breaks))]
    fn is_breaking(self, shape: Shape) -> bool
        ensures { result ≡ breaks shape self }
    {
        match shape {
            Shape::Op1 => at_least_two(self.op1_imm, self.op1_fp, self.op1_ap),
            Shape::Res => at_least_two(self.res_add, self.res_mul, self.pc_jnz),
            Shape::Pc => at_least_two(self.pc_abs, self.pc_rel, self.pc_jnz),
            Shape::Opcode => at_least_two(self.op_call, self.op_ret, self.op_assert),
            Shape::ApBoth => self.ap_add && self.ap_add1,
            Shape::JnzOpcode => self.pc_jnz && (self.op_call || self.op_ret || self.op_assert),
            Shape::JnzAp => self.pc_jnz && self.ap_add,
            Shape::CallAp => self.op_call && (self.ap_add || self.ap_add1),
        }
    }

    /// The first shape that the flags break.
    #[tactic(auto, unfolding(crate::specs::Word::first_broken))]
    fn first_broken(self) -> Option<Shape>
        ensures { result ≡ first_broken self }
    {
        SHAPES
            .iter()
            .copied()
            .find(|shape| self.is_breaking(*shape))
    }
}
