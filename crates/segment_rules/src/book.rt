//! A closure beside the law that it answers, and the rules of a run.
ghost use Rattle.std.specs.Prelude.{◌≡◌, ◌<◌, ℕ, Bool};
ghost use Rattle.goldilocks.specs.Field.{prime};
ghost use Rattle.segment_rules.specs.Laws.{allows, law_of};

use crate::CellLaw;

/// A closure that judges a number.
pub type Judge = Box<dyn Fn(u64) -> bool>;

/// A law with a closure that answers it.
///
/// The closure may be called on every number below p, and there it says whether the law allows the number; the type keeps
/// that.
#[derive(Drop)]
pub struct KeptRule {
    pub(crate) law: CellLaw,
    pub(crate) judge: Judge,
    ghost callable: { (x : ℕ) → x < prime → Judge.pre judge x },
    ghost answers: { (x : ℕ) (b : Bool) → x < prime → Judge.post judge x b → b ≡ allows (law_of law) x },
}

/// The rules of a run: for each builtin one or none.
#[derive(Drop)]
pub struct RuleBook {
    pub(crate) output: Option<KeptRule>,
    pub(crate) range: Option<KeptRule>,
}
