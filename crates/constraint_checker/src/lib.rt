//! The verdict on the tables of a run: which written constraint fails first, or none, and what it means that none does.
#![tactic(auto)]

ghost use Rattle.std.specs.Prelude.{◌≡◌, ◌↔◌, IsTrue};

mod checking;
mod laws;
mod names;

pub use checking::check;
pub use laws::{acceptance_laws, verdict_laws};

/// The name of a written constraint, which is a letter and a number: `C(33)` is C33.
#[derive(Clone, Copy, Debug, PartialEq, Eq)]
pub enum Constraint {
    /// P1 to P7: the counts, the first state and the last state are those of the program and the public input.
    P(u8),
    /// C1 to C39: a row is a step to the state after it.
    C(u8),
    /// V1: a range cell is its three limbs.
    V(u8),
    /// M1 to M3: the accesses are to one read-only memory.
    M(u8),
    /// Q1 to Q4: the offsets and limbs lie in their range.
    Q(u8),
}

/// What the tables are found to be.
#[derive(Clone, Copy, Debug, PartialEq, Eq)]
pub enum Verdict {
    /// Every constraint holds.
    Accepted,
    /// A constraint fails.
    Refused {
        /// The first one that fails.
        constraint: Constraint,
        /// The row of the failure: that of the trace table, a range row, or a place in a sorted column.
        row: u64,
    },
}

impl Verdict {
    /// Whether every constraint holds.
    pub fn is_accepted(&self) -> bool
        ensures { IsTrue result ↔ (self.now ≡ Verdict.Accepted) }
    {
        matches!(self, Verdict::Accepted)
    }
}
