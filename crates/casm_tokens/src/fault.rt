//! Why a text is refused.

use std::alloc::AllocError;
use std::error::Error;
use std::fmt;

/// What is wrong at a place of a text.
#[derive(Clone, Copy, Debug, PartialEq, Eq)]
pub enum SyntaxKind {
    /// A byte that begins no token.
    Char,
    /// A number with a bad or missing digit.
    Number,
    /// A number of p or more, or an offset or a place out of its bounds.
    Range,
    /// A token with which its line begins no line of the grammar, or a line's end where more is missing.
    Token,
}

/// Why a text is refused.
#[derive(Clone, Copy, Debug, PartialEq, Eq)]
pub enum ParseFault {
    /// The text is wrong at this place.
    Syntax {
        /// The line, from 1.
        line: u32,
        /// The byte in its line, from 1.
        column: u32,
        /// What is wrong.
        kind: SyntaxKind,
    },
    /// There is no memory.
    Memory,
}

impl From<AllocError> for ParseFault {
    ghost use Rattle.std.specs.Prelude.{◌≡◌};
    ghost use Rattle.casm_tokens.specs.declared.fault.ParseFault.TheVariants.{Memory};

    ghost from_gives = { λ _ fault. fault ≡ Memory };

    fn from(_error: AllocError) -> ParseFault {
        ParseFault::Memory
    }
}

/// The kind as it is printed: its name.
impl fmt::Display for SyntaxKind {
    ghost use Rattle.std.specs.Prelude.{Some};
    ghost use Rattle.casm_tokens.specs.FaultText.{kind_name};

    ghost output = { λ kind. Some (kind_name kind) };

    fn fmt<W: fmt::Write>(&self, f: &mut fmt::Formatter<W>) -> fmt::Result {
        match self {
            SyntaxKind::Char => write!(f, "Char"),
            SyntaxKind::Number => write!(f, "Number"),
            SyntaxKind::Range => write!(f, "Range"),
            SyntaxKind::Token => write!(f, "Token"),
        }
    }
}

/// The fault as it is printed: its kind, its line and its column, as `Range 1:14`.
impl fmt::Display for ParseFault {
    ghost use Rattle.std.specs.Prelude.{Some};
    ghost use Rattle.casm_tokens.specs.FaultText.{parse_fault_text};

    ghost output = { λ fault. Some (parse_fault_text fault) };

    fn fmt<W: fmt::Write>(&self, f: &mut fmt::Formatter<W>) -> fmt::Result {
        match self {
            ParseFault::Syntax { line, column, kind } => write!(f, "{kind} {line}:{column}"),
            ParseFault::Memory => write!(f, "Memory"),
        }
    }
}

impl Error for ParseFault {}
