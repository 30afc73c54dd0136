//! Causes against a cell as they are printed.
use crate::cells::CellCause;
use std::error::Error;
use std::fmt;

impl fmt::Display for CellCause {
    ghost use Rattle.std.specs.Prelude.{Some};
    ghost use Rattle.builtin_segments.specs.Shown.{cell_cause_text};

    ghost output = { λ cause. Some (cell_cause_text cause) };

    fn fmt<W: fmt::Write>(&self, f: &mut fmt::Formatter<W>) -> fmt::Result {
        match self {
            CellCause::Put(cause) => write!(f, "{cause}"),
        }
    }
}

impl Error for CellCause {}
