//! Rules of segments: what their laws allow, and that their closures are asked.
use super::NO_MEMORY;
use goldilocks::Felt;
use segment_rules::{Builtin, CellLaw, KeptRule, RuleBook};
use std::alloc::Global;
use std::process::Abort;
use std::sync::Arc;
use std::sync::atomic::{AtomicU64, Ordering};

/// A number, and whether these are allowed: no law, the law of 3 and 5, and the law of numbers of 48 bits.
const JUDGED: &[(u64, bool, bool, bool)] = &[
    (0, true, false, true),
    (3, true, true, true),
    (4, true, false, true),
    (5, true, true, true),
    (0xffff_ffff_ffff, true, false, true),
    (0x1_0000_0000_0000, true, false, false),
    (0xffff_ffff_0000_0000, true, false, false),
];

#[test]
#[tactic(auto, unfolding(segment_rules::specs::Laws::allows))]
fn numbers_are_judged_by_the_law_of_their_segment(rt: HostRuntime) {
    let alloc = Global::new(rt.memory());
    let numbers = vec![in alloc; 3, 5].expect(&rt, NO_MEMORY);
    let judge = Box::new(alloc, |x: u64| x == 3 || x == 5).expect(&rt, NO_MEMORY);
    let listed = KeptRule::new(CellLaw::Listed(numbers), judge);
    let judge = Box::new(alloc, |x: u64| x < 4).expect(&rt, NO_MEMORY);
    let older = KeptRule::new(CellLaw::Below(4), judge);
    let judge = Box::new(alloc, |x: u64| x < 0x1_0000_0000_0000).expect(&rt, NO_MEMORY);
    let below = KeptRule::new(CellLaw::Below(0x1_0000_0000_0000), judge);
    let output = RuleBook::new().with_rule(Builtin::Output, listed);
    check_rules(&rt, &output, true, false);
    for (number, no_law, listed, _) in JUDGED {
        check_judged(&rt, &output, Builtin::RangeCheck, *number, *no_law);
        check_judged(&rt, &output, Builtin::Output, *number, *listed);
    }
    let both = output
        .with_rule(Builtin::RangeCheck, older)
        .with_rule(Builtin::RangeCheck, below);
    check_rules(&rt, &both, true, true);
    for (number, _, listed, below) in JUDGED {
        check_judged(&rt, &both, Builtin::Output, *number, *listed);
        check_judged(&rt, &both, Builtin::RangeCheck, *number, *below);
    }
}

/// Compares which builtins have a rule.
fn check_rules(rt: &impl Abort, book: &RuleBook, output: bool, range: bool) {
    assert!(rt; book.has_rule(Builtin::Output) == output, "output");
    assert!(rt; book.has_rule(Builtin::RangeCheck) == range, "range check");
}

/// Compares whether a builtin's cells may hold a number.
fn check_judged(rt: &impl Abort, book: &RuleBook, builtin: Builtin, number: u64, wanted: bool) {
    let judged = Felt::new(number).expect(rt, "a number of the field");
    assert!(rt;
        book.judge(builtin, judged) == wanted,
        "{builtin:?} {number}"
    );
}

#[test]
#[tactic(auto, unfolding(segment_rules::specs::Laws::allows))]
fn the_closure_of_a_rule_is_asked(rt: HostRuntime) {
    let alloc = Global::new(rt.memory());
    let asked = Arc::new(alloc, AtomicU64::new(0)).expect(&rt, NO_MEMORY);
    let counter = Arc::try_clone(&asked).expect(&rt, "few counters");
    let judge = Box::new(alloc, move |x: u64| {
        counter.fetch_add(1, Ordering::SeqCst);
        x < 10
    })
    .expect(&rt, NO_MEMORY);
    let book = RuleBook::new().with_rule(Builtin::Output, KeptRule::new(CellLaw::Below(10), judge));
    assert!(rt; book.judge(Builtin::Output, Felt::ONE), "1 is allowed");
    assert!(rt; asked.load(Ordering::SeqCst) == 1, "asked once");
}
