//! What rules judge.
ghost use Rattle.std.specs.Prelude.{◌≡◌, ◌<◌, ◌↔◌, ℕ, Bool, IsTrue, IsSome, option_map};
ghost use Rattle.goldilocks.specs.Field.{prime};
ghost use Rattle.segment_rules.specs.Laws.{allows, law_of};
ghost use Rattle.segment_rules.specs.Books.{kept_law, laws_of, no_laws, with_law, law_for, permits};

use crate::{Builtin, CellLaw, Judge, KeptRule, RuleBook};
use goldilocks::Felt;

impl KeptRule {
    /// The rule of this law, which this closure answers: on every number below p it may be called, and it says whether the
    /// law allows the number.
    pub fn new(law: CellLaw, judge: Judge) -> KeptRule
        requires callable { (x : ℕ) → x < prime → Judge.pre judge x }
        requires answers { (x : ℕ) (b : Bool) → x < prime → Judge.post judge x b → b ≡ allows (law_of law) x }
        ensures { kept_law result ≡ law_of law }
    {
        KeptRule { law, judge }
    }

    /// Whether the law allows the number. The closure is asked.
    fn allows(&self, number: Felt) -> bool
        ensures { result ≡ allows (kept_law self.now) number.number }
    {
        (self.judge)(number.number)
    }
}

impl RuleBook {
    /// No rule for any builtin.
    pub fn new() -> RuleBook
        ensures { laws_of result ≡ no_laws }
    {
        RuleBook {
            output: None,
            range: None,
        }
    }

    /// The same rules, but with this one for this builtin, in the place of an older one.
    #[tactic(auto, unfolding(crate::specs::Books::with_law))]
    pub fn with_rule(self, builtin: Builtin, rule: KeptRule) -> RuleBook
        ensures { laws_of result ≡ with_law builtin (kept_law rule) (laws_of self) }
    {
        match builtin {
            Builtin::Output => RuleBook {
                output: Some(rule),
                range: self.range,
            },
            Builtin::RangeCheck => RuleBook {
                output: self.output,
                range: Some(rule),
            },
        }
    }

    /// Whether there is a rule for this builtin.
    #[tactic(auto, unfolding(crate::specs::Books::law_for))]
    pub fn has_rule(&self, builtin: Builtin) -> bool
        ensures { IsTrue result ↔ IsSome (law_for builtin (laws_of self.now)) }
    {
        self.rule(builtin).is_some()
    }

    /// Whether this builtin's cells may hold the number: where it has no rule, or its law allows the number. The rule's
    /// closure is asked.
    #[tactic(auto, unfolding(crate::specs::Books::law_for, crate::specs::Books::permits))]
    pub fn judge(&self, builtin: Builtin, number: Felt) -> bool
        ensures { result ≡ permits (law_for builtin (laws_of self.now)) number.number }
    {
        match self.rule(builtin) {
            None => true,
            Some(rule) => rule.allows(number),
        }
    }

    /// The rule of this builtin.
    #[tactic(auto, unfolding(crate::specs::Books::law_for))]
    fn rule(&self, builtin: Builtin) -> Option<&KeptRule>
        ensures { option_map (λ rule. kept_law rule.now) result ≡ law_for builtin (laws_of self.now) }
    {
        match builtin {
            Builtin::Output => self.output.as_ref(),
            Builtin::RangeCheck => self.range.as_ref(),
        }
    }
}
