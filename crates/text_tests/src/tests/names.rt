//! Which texts are labels.

use casm_statements::Name;
use std::test::Fail;

const LABELS: &[&[u8]] = &[b"f_1", b"apx", b"_", b"AP", b"start", b"end", b"builtins"];

const OTHERS: &[&[u8]] = &[
    b"ap",
    b"fp",
    b"jmp",
    b"call",
    b"ret",
    b"if",
    b"rel",
    b"abs",
    b"dw",
    b"",
    b"1f",
    b"f-1",
    b"f 1",
    b"f:",
    b"\xc3\xa9",
    b"f\xc3",
    b"f\n",
];

#[test]
fn names_are_labels(rt: HostRuntime) -> Result<(), Fail> {
    for text in LABELS {
        let name = Name::new(rt.alloc(), text)?;
        assert!(rt; name.is_some_and(|name| name.text() == *text), "{text:?}");
    }
    for text in OTHERS {
        let name = Name::new(rt.alloc(), text)?;
        assert!(rt; name.is_none(), "{text:?}");
    }
    Ok(())
}
