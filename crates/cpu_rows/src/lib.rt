//! The rows of the trace table: the 33 columns of a step, and the 39 equations that tie them to the next state.
#![tactic(auto)]

mod builder;
mod equations;
mod laws;
mod table;

pub use builder::build_row;
use casm_word::State;
pub use equations::row_fault;
use goldilocks::Felt;
pub use laws::{equation_laws, row_laws, value_laws};
pub use table::first_fault;

/// One row of the trace table: what a step reads, computes and knows of its instruction.
#[derive(Clone, Copy, Debug, PartialEq, Eq)]
pub struct Row {
    /// Where the instruction lies.
    pub pc: Felt,
    /// Where the next free cell lies.
    pub ap: Felt,
    /// Where the frame of the current function lies.
    pub fp: Felt,
    /// The word of the instruction.
    pub inst: Felt,
    /// The flags of the word as a number, and what is left of it as one flag after the other is taken off.
    pub tilde: [Felt; 16],
    /// The offset of dst, with 2^15 added.
    pub off_dst: Felt,
    /// The offset of op0, with 2^15 added.
    pub off_op0: Felt,
    /// The offset of op1, with 2^15 added.
    pub off_op1: Felt,
    /// Where dst lies.
    pub dst_addr: Felt,
    /// Where op0 lies.
    pub op0_addr: Felt,
    /// Where op1 lies.
    pub op1_addr: Felt,
    /// The cell at `dst_addr`.
    pub dst: Felt,
    /// The cell at `op0_addr`.
    pub op0: Felt,
    /// The cell at `op1_addr`.
    pub op1: Felt,
    /// The product of op0 and op1.
    pub mul: Felt,
    /// What the instruction computes; under a conditional jump the inverse of dst.
    pub res: Felt,
    /// dst under a conditional jump, else 0.
    pub t0: Felt,
    /// The product of t0 and res.
    pub t1: Felt,
}

impl Row {
    ghost use Rattle.std.specs.Prelude.{◌≡◌};
    ghost use Rattle.casm_word.specs.Transition.{registers};
    ghost use Rattle.cpu_rows.specs.Columns.{columns, values, state_of};
    ghost use Rattle.goldilocks.specs.Felts.{numbers};

    /// The row's values in the order of its columns, with tilde in its place.
    pub fn values(&self) -> [Felt; 33]
        ensures { numbers result ≡ values (columns self.now) }
    {
        [
            self.pc,
            self.ap,
            self.fp,
            self.inst,
            self.tilde[0],
            self.tilde[1],
            self.tilde[2],
            self.tilde[3],
            self.tilde[4],
            self.tilde[5],
            self.tilde[6],
            self.tilde[7],
            self.tilde[8],
            self.tilde[9],
            self.tilde[10],
            self.tilde[11],
            self.tilde[12],
            self.tilde[13],
            self.tilde[14],
            self.tilde[15],
            self.off_dst,
            self.off_op0,
            self.off_op1,
            self.dst_addr,
            self.op0_addr,
            self.op1_addr,
            self.dst,
            self.op0,
            self.op1,
            self.mul,
            self.res,
            self.t0,
            self.t1,
        ]
    }

    /// The row with these values, in the order of the columns.
    pub fn of_values(v: &[Felt; 33]) -> Row
        ensures { values (columns result) ≡ numbers v.now }
    {
        Row {
            pc: v[0],
            ap: v[1],
            fp: v[2],
            inst: v[3],
            tilde: [
                v[4], v[5], v[6], v[7], v[8], v[9], v[10], v[11], v[12], v[13], v[14], v[15],
                v[16], v[17], v[18], v[19],
            ],
            off_dst: v[20],
            off_op0: v[21],
            off_op1: v[22],
            dst_addr: v[23],
            op0_addr: v[24],
            op1_addr: v[25],
            dst: v[26],
            op0: v[27],
            op1: v[28],
            mul: v[29],
            res: v[30],
            t0: v[31],
            t1: v[32],
        }
    }

    /// The state that the row begins in.
    pub fn state(&self) -> State
        ensures { registers result ≡ state_of (columns self.now) }
    {
        State {
            pc: self.pc,
            ap: self.ap,
            fp: self.fp,
        }
    }
}
