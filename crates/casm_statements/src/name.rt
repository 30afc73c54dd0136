//! Names of labels.
ghost use Rattle.std.specs.Prelude.{◌≡◌, ◌↔◌, IsTrue, IfOk, IfSome, IsSome, nat_eq};
ghost use Rattle.std.specs.List.{list_all};
ghost use Rattle.std.proofs.Common.{rules};
ghost use Rattle.std.specs.Cmp.{partial_equiv_from_equiv};
ghost use Rattle.std.specs.Cmp.Lexicographic.{nat_list_eq_equiv, pointwise};
ghost use Rattle.std.specs.Cmp.Rules.{hashing};
ghost use Rattle.std.specs.Hash as fed;
ghost use Rattle.casm_statements.specs.Label.{is_word, is_label, is_word_head, is_word_byte, reserved_word};

use crate::Label;
use std::alloc::{AllocError, Global};
use std::fmt;
use std::hash::{Hash, Hasher};
use std::marker::Model;

/// The name of a label: a letter or `_` and then letters, digits or `_`, and no reserved word.
///
/// Names are compared and hashed by their bytes.
#[derive(Drop)]
pub struct Name {
    text: Vec<u8>,
}

impl Model for Name {
    ghost use Rattle.std.specs.Prelude.{List, ℕ, IsTrue};
    ghost use Rattle.std.specs.Coded.{coded_ℕ, coded_list};
    ghost use Rattle.casm_statements.specs.Label.{is_label};

    ghost Value = { List ℕ };

    ghost coded = { coded_list coded_ℕ };

    ghost view = { λ n. n.text.items };

    ghost invariant = { λ n. IsTrue (is_label n.text.items) };
}

/// A word that is no label.
#[derive(Clone, Copy, Debug, PartialEq, Eq)]
pub enum Reserved {
    /// `ap`
    Ap,
    /// `fp`
    Fp,
    /// `jmp`
    Jmp,
    /// `call`
    Call,
    /// `ret`
    Ret,
    /// `if`
    If,
    /// `rel`
    Rel,
    /// `abs`
    Abs,
    /// `dw`
    Dw,
}

impl PartialEq for Name {
    ghost eq = { λ a b. pointwise nat_eq a b };

    ghost laws = { partial_equiv_from_equiv nat_list_eq_equiv };

    fn eq(&self, other: &Name) -> bool {
        self.text.as_slice() == other.text.as_slice()
    }
}

impl Eq for Name {
    ghost laws = { nat_list_eq_equiv };
}

impl Hash for Name {
    ghost hash_input = { λ n. fed.slice fed.u8 n };

    ghost respects_eq = { Prim.search (hashing, rules) };

    fn hash<H: Hasher>(&self, state: &mut H) {
        self.text.as_slice().hash(state);
    }
}

impl fmt::Debug for Name {
    fn fmt<W: fmt::Write>(&self, f: &mut fmt::Formatter<W>) -> fmt::Result {
        let text = self.text.as_slice();
        write!(f, "Name({text:?})")
    }
}

impl Name {
    /// The name of these bytes, or `None` exactly where they are no label.
    pub fn new(alloc: Global, text: &[u8]) -> Result<Option<Name>, AllocError>
        ensures some { IfOk result (λ found. IsSome found ↔ IsTrue (is_label text.now)) }
        ensures name { IfOk result (λ found. IfSome found (λ name. name ≡ text.now)) }
    {
        if !is_label(text) {
            return Ok(None);
        }
        let text = text.to_vec(alloc)?;
        Ok(Some(Name { text }))
    }

    /// The name of a label's bytes.
    pub fn of_label(alloc: Global, label: Label<'_>) -> Result<Name, AllocError>
        ensures { IfOk result (λ name. name ≡ label.entry.text.now) }
    {
        let text = label.text.to_vec(alloc)?;
        Ok(Name { text })
    }

    /// Its bytes, of which [`Name::new`] makes an equal name.
    pub fn text(&self) -> &[u8]
        ensures bytes { result.now ≡ self.now }
        ensures label { IsTrue (is_label self.now) }
    {
        self.text.as_slice()
    }
}

/// The reserved word that `text` is, if it is one.
#[tactic(auto, unfolding(crate::specs::Label::reserved_word))]
pub fn reserved_word(text: &[u8]) -> Option<Reserved>
    ensures { result ≡ reserved_word text.now }
{
    if text == b"ap".as_slice() {
        Some(Reserved::Ap)
    } else if text == b"fp".as_slice() {
        Some(Reserved::Fp)
    } else if text == b"jmp".as_slice() {
        Some(Reserved::Jmp)
    } else if text == b"call".as_slice() {
        Some(Reserved::Call)
    } else if text == b"ret".as_slice() {
        Some(Reserved::Ret)
    } else if text == b"if".as_slice() {
        Some(Reserved::If)
    } else if text == b"rel".as_slice() {
        Some(Reserved::Rel)
    } else if text == b"abs".as_slice() {
        Some(Reserved::Abs)
    } else if text == b"dw".as_slice() {
        Some(Reserved::Dw)
    } else {
        None
    }
}

/// Whether a word may begin with the byte: a letter or `_`.
pub fn is_word_head(byte: u8) -> bool
    ensures { result ≡ is_word_head byte }
{
    byte.is_ascii_alphabetic() || byte == b'_'
}

/// Whether a word may go on with the byte: a letter, a digit or `_`.
pub fn is_word_byte(byte: u8) -> bool
    ensures { result ≡ is_word_byte byte }
{
    is_word_head(byte) || byte.is_ascii_digit()
}

/// Whether `text` is a word.
fn is_word(text: &[u8]) -> bool
    ensures { result ≡ is_word text.now }
{
    match text.split_first() {
        Some((first, rest)) => is_word_head(*first) && are_word_bytes(rest),
        None => false,
    }
}

/// Whether a word may go on with all of `bytes`.
fn are_word_bytes(bytes: &[u8]) -> bool
    ensures { result ≡ list_all is_word_byte bytes.now }
{
    bytes.iter().all(|byte| is_word_byte(*byte))
}

/// Whether `text` may be a label.
#[tactic(auto, unfolding(crate::specs::Label::is_label))]
fn is_label(text: &[u8]) -> bool
    ensures { result ≡ is_label text.now }
{
    is_word(text) && reserved_word(text).is_none()
}
