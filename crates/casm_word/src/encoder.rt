//! The number of an instruction.
#![tactic(auto)]

ghost use Rattle.std.specs.Prelude.{◌≡◌, ◌<◌, ◌≤◌, ◌-◌, ◌^◌, ℕ};
ghost use Rattle.casm_word.specs.Word.{biased, decoding, first_broken, flag_at, flags_number, word_number};

use crate::{Flags, OFFSET_BIAS, Word};

/// The number of the word `w`, for all flags: three offsets of sixteen bits with 2^15 added, and the flags after them.
///
/// Decoding it gives the word again where its flags are defined, and it is the number that the word was decoded from.
#[tactic(auto, unfolding(crate::specs::Word::word_number))]
pub fn encode(w: &Word) -> u64
    ensures value { result ≡ word_number w.now }
    ensures decoded { first_broken w.now.flags ≡ None → decoding result ≡ Ok w.now }
    ensures encoded { (v : ℕ) → decoding v ≡ Ok w.now → result ≡ v }
{
    biased_offset(w.off_dst)
        + (biased_offset(w.off_op0) << 16)
        + (biased_offset(w.off_op1) << 32)
        + w.flags.number()
}

/// The sixteen bits that hold the offset.
fn biased_offset(offset: i16) -> u64
    ensures value { result ≡ biased offset }
    ensures below { result < 2 ^ 16 }
{
    (i32::from(offset) + OFFSET_BIAS) as u64
}

/// Bit `place`, where the flag is set.
fn bit_of(flag: bool, place: u32) -> u64
    requires { place < 64 }
    ensures value { result ≡ flag_at place flag }
    ensures below { result ≤ 2 ^ place }
{
    if flag { 1 << place } else { 0 }
}

impl Flags {
    /// What the flags add to the number of a word.
    #[tactic(auto, unfolding(crate::specs::Word::flags_number))]
    fn number(self) -> u64
        ensures value { result ≡ flags_number self }
        ensures below { result ≤ 2 ^ 63 - 2 ^ 48 }
    {
        bit_of(self.dst_fp, 48)
            + bit_of(self.op0_fp, 49)
            + bit_of(self.op1_imm, 50)
            + bit_of(self.op1_fp, 51)
            + bit_of(self.op1_ap, 52)
            + bit_of(self.res_add, 53)
            + bit_of(self.res_mul, 54)
            + bit_of(self.pc_abs, 55)
            + bit_of(self.pc_rel, 56)
            + bit_of(self.pc_jnz, 57)
            + bit_of(self.ap_add, 58)
            + bit_of(self.ap_add1, 59)
            + bit_of(self.op_call, 60)
            + bit_of(self.op_ret, 61)
            + bit_of(self.op_assert, 62)
    }
}
