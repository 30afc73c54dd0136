//! The instruction word of the Cairo machine, one step of it, and the most words of a program.
#![tactic(auto)]

mod decoder;
mod encoder;
mod laws;
mod refused;
mod stepper;
mod text;

pub use decoder::decode;
pub use encoder::encode;
use goldilocks::Felt;
pub use laws::{legal_run_laws, outcome_laws, refused_step_laws};
pub use refused::first_refused;
pub use stepper::step;

/// The most words that a program has, 2^18.
pub const PROGRAM_WORD_LIMIT: usize = 0x4_0000;

/// What is added to an offset in a word, 2^15.
const OFFSET_BIAS: i32 = 0x8000;

/// The fifteen flags of an instruction, in the order of bits 48 to 62 of its word.
#[derive(Clone, Copy, Debug, PartialEq, Eq)]
pub struct Flags {
    /// dst lies by fp, else by ap.
    pub dst_fp: bool,
    /// op0 lies by fp, else by ap.
    pub op0_fp: bool,
    /// op1 lies by pc: the immediate.
    pub op1_imm: bool,
    /// op1 lies by fp.
    pub op1_fp: bool,
    /// op1 lies by ap. With none of the three it lies by op0.
    pub op1_ap: bool,
    /// res is op0 + op1.
    pub res_add: bool,
    /// res is op0 · op1. With neither flag it is op1.
    pub res_mul: bool,
    /// A jump to res.
    pub pc_abs: bool,
    /// A jump by res.
    pub pc_rel: bool,
    /// A jump by op1 where dst isn't 0.
    pub pc_jnz: bool,
    /// ap grows by res.
    pub ap_add: bool,
    /// ap grows by 1.
    pub ap_add1: bool,
    /// A call: op0 is the pc to return to, dst the caller's fp, and a new frame begins.
    pub op_call: bool,
    /// A return: fp becomes dst.
    pub op_ret: bool,
    /// An assertion: dst is res.
    pub op_assert: bool,
}

/// A decoded instruction: where its operands lie, in cells from a register or from op0, and its flags.
#[derive(Clone, Copy, Debug, PartialEq, Eq)]
pub struct Word {
    /// From fp or ap to dst.
    pub off_dst: i16,
    /// From fp or ap to op0.
    pub off_op0: i16,
    /// From pc, fp, ap or op0 to op1.
    pub off_op1: i16,
    /// The flags.
    pub flags: Flags,
}

/// The three registers of the machine.
#[derive(Clone, Copy, Debug, PartialEq, Eq)]
pub struct State {
    /// Where the instruction lies.
    pub pc: Felt,
    /// Where the next free cell lies.
    pub ap: Felt,
    /// Where the frame of the current function lies.
    pub fp: Felt,
}

/// A rule on flags that a word may break, in the order in which they are tested.
#[derive(Clone, Copy, Debug, PartialEq, Eq)]
pub enum Shape {
    /// Two of `op1_imm`, `op1_fp` and `op1_ap`.
    Op1,
    /// Two of `res_add`, `res_mul` and `pc_jnz`.
    Res,
    /// Two of `pc_abs`, `pc_rel` and `pc_jnz`.
    Pc,
    /// Two of `op_call`, `op_ret` and `op_assert`.
    Opcode,
    /// Both `ap_add` and `ap_add1`.
    ApBoth,
    /// `pc_jnz` with an opcode.
    JnzOpcode,
    /// `pc_jnz` with `ap_add`.
    JnzAp,
    /// `op_call` with `ap_add` or `ap_add1`.
    CallAp,
}

/// Why a number is no instruction.
#[derive(Clone, Copy, Debug, PartialEq, Eq)]
pub enum WordFault {
    /// The number is 2^63 or more.
    HighBit,
    /// Its flags are undefined: the first shape that they break.
    Undefined(Shape),
}

/// A memory that is only read: a partial map from numbers of the field to numbers of the field.
pub trait Reads {
    ghost use Rattle.std.specs.Prelude.{◌≡◌, ℕ, Option, option_map};

    /// The map.
    ghost cells: { Self → ℕ → Option ℕ };

    /// The value at the address `a`, or `None` where the map has none.
    fn read(&self, a: Felt) -> Option<Felt>
        ensures { option_map (λ x. x.number) result ≡ cells self.now a.number };
}

/// What a step comes to.
#[derive(Clone, Copy, Debug, PartialEq, Eq)]
pub enum StepResult {
    /// The next state.
    Next(State),
    /// The cell at this address is missing, the first one that is asked for.
    NoCell(Felt),
    /// The cell at pc is no instruction.
    BadWord(WordFault),
    /// A call whose op0 isn't the pc after it.
    CallPc,
    /// A call whose dst isn't fp.
    CallFp,
    /// An assertion whose dst isn't res.
    NotEqual,
}
