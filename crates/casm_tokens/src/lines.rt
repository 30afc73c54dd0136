//! The lines of a text.
ghost use Rattle.std.specs.Prelude.{◌≡◌, ◌∷◌, ◌++◌, ◌+◌, ◌≤◌, length, MatchOption};
ghost use Rattle.std.specs.List.{prefix_len};
ghost use Rattle.casm_tokens.specs.Lines.{is_in_line, IsLine};

/// The first line of a text, and what follows its line feed, if it has one.
pub fn split_line(text: &[u8]) -> (&[u8], Option<&[u8]>)
    ensures line { IsLine result.0.now }
    ensures rest { MatchOption result.1 (text.now ≡ result.0.now) (λ rest. text.now ≡ result.0.now ++ 10 ∷ rest.now) }
    ensures len { MatchOption result.1 (length result.0.now ≡ length text.now) (λ rest. length result.0.now + 1 + length rest.now ≡ length text.now) }
{
    let len = line_len(text);
    if len < text.len() {
        (&text[..len], Some(&text[len + 1..]))
    } else {
        (&text[..len], None)
    }
}

/// How many bytes stand before the first line feed.
fn line_len(text: &[u8]) -> usize
    ensures value { result ≡ prefix_len is_in_line text.now }
    ensures within { result ≤ length text.now }
{
    let mut len = 0;
    while len < text.len() && text[len] != b'\n' {
        len += 1;
    }
    len
}
