//! The first pass over items: their labels, how many words they give, and what is given twice.
#![tactic(auto)]

ghost use Rattle.std.specs.Prelude.{◌≡◌, ℕ, [], ◌∷◌, ◌++◌, None, false, IfOk, IfErr, OnOk};
ghost use Rattle.assembler.specs.Assembly.{value_in};
ghost use Rattle.casm_statements.specs.declared.Item.{Item};
ghost use Rattle.casm_text.specs.Meaning.{bodies};
ghost use Rattle.assembler.specs.Faults.{RepeatsAt};
ghost use Rattle.assembler.specs.Views.{Surveys, has_given, TakesUp, TellsRepeat, TellsFirstRepeat};

use crate::AsmFault;
use crate::words::{body_size, copy};
use casm_text::{Body, Item, Name};
use indexmap::IndexMap;
use std::alloc::{AllocError, Global};

/// What the items before one give.
#[derive(Drop)]
pub(crate) struct Survey {
    /// The labels, each with the number of words before it.
    pub labels: IndexMap<Name, u32>,
    /// The number of words, or the last value of `u32` where there are more.
    pub words: u32,
    /// Whether `%builtins` was given.
    pub builtins: bool,
    /// Whether `%start` was given.
    pub start: bool,
    /// Whether `%end` was given.
    pub end: bool,
}

impl Survey {
    /// What items give, or that one of them repeats what was given.
    pub(crate) fn of(alloc: Global, items: &[Item]) -> Result<Survey, AsmFault>
        ensures surveys { IfOk result (λ survey. Surveys (bodies items.now) survey) }
        ensures new { OnOk result ((k : ℕ) (i : Item) → RepeatsAt items.now k i → ⊥) }
        ensures fault { IfErr result (TellsFirstRepeat items.now) }
    {
        let mut survey = Survey {
            labels: IndexMap::new(alloc),
            words: 0,
            builtins: false,
            start: false,
            end: false,
        };
        for item in items {
            survey.add(alloc, item)?;
        }
        Ok(survey)
    }

    /// Takes up the next item, unless it repeats what was given.
    fn add(&mut self, alloc: Global, item: &Item) -> Result<(), AsmFault>
        ensures ok { OnOk result (TakesUp self.old item.now.body self.new) }
        ensures fault { IfErr result (TellsRepeat self.old item.now) }
    {
        if self.has(&item.body) {
            return Err(AsmFault::Duplicate { line: item.line });
        }
        self.note(alloc, &item.body)?;
        Ok(())
    }

    /// Notes a body that wasn't given before.
    fn note(&mut self, alloc: Global, body: &Body) -> Result<(), AllocError>
        requires { has_given self.old body.now ≡ false }
        ensures { OnOk result (TakesUp self.old body.now self.new) }
    {
        let place = self.words;
        self.words = self.words.saturating_add(body_size(body));
        match body {
            Body::Builtins { .. } => {
                self.builtins = true;
                Ok(())
            }
            Body::Start(_) => {
                self.start = true;
                Ok(())
            }
            Body::End(_) => {
                self.end = true;
                Ok(())
            }
            Body::Label(name) => {
                let name = copy(alloc, name)?;
                insert(&mut self.labels, name, place)
            }
            _ => Ok(()),
        }
    }

    /// Whether a body is a label or a directive that was given.
    fn has(&self, body: &Body) -> bool
        ensures { result ≡ has_given self.now body.now }
    {
        match body {
            Body::Builtins { .. } => self.builtins,
            Body::Start(_) => self.start,
            Body::End(_) => self.end,
            Body::Label(name) => self.labels.contains_key(name),
            _ => false,
        }
    }
}

/// Adds a new label.
fn insert(labels: &mut IndexMap<Name, u32>, name: Name, place: u32) -> Result<(), AllocError>
    requires { value_in labels.old.entries name ≡ None }
    ensures { OnOk result (labels.new.entries ≡ labels.old.entries ++ (name, place) ∷ []) }
{
    labels.insert(name, place)?;
    Ok(())
}
