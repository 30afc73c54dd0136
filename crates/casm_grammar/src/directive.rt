//! The words of directives. They are labels too.
#![tactic(auto, unfolding(crate::specs::Directives::directive_word))]

ghost use Rattle.std.specs.Prelude.{◌≡◌};
ghost use Rattle.casm_grammar.specs.Directives.{directive_word};

/// A word that a directive knows.
#[derive(Clone, Copy, Debug, PartialEq, Eq)]
pub enum Directive {
    /// `builtins`
    Builtins,
    /// `output`
    Output,
    /// `range_check`
    RangeCheck,
    /// `start`
    Start,
    /// `end`
    End,
}

/// The directive's word that `text` is, if it is one.
pub fn directive_word(text: &[u8]) -> Option<Directive>
    ensures { result ≡ directive_word text.now }
{
    if text == b"builtins".as_slice() {
        Some(Directive::Builtins)
    } else if text == b"output".as_slice() {
        Some(Directive::Output)
    } else if text == b"range_check".as_slice() {
        Some(Directive::RangeCheck)
    } else if text == b"start".as_slice() {
        Some(Directive::Start)
    } else if text == b"end".as_slice() {
        Some(Directive::End)
    } else {
        None
    }
}
