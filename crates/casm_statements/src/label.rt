//! Bytes that are a label.
ghost use Rattle.std.specs.Prelude.{◌≡◌, IsTrue, IfOk};
ghost use Rattle.casm_statements.specs.Label.{is_label};

/// Bytes that are a label, borrowed from the text.
#[derive(Clone, Copy, Debug)]
pub struct Label<'a> {
    /// The bytes.
    pub text: &'a [u8],
    pub ghost is_label: { IsTrue (is_label text.now) },
}
