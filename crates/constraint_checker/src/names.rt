//! How a constraint is printed.

ghost use Rattle.std.specs.Prelude.{Some};
ghost use Rattle.constraint_checker.specs.Shown.{constraint_name};

use crate::Constraint;
use std::fmt;

/// The letter and the number, as in `C33`.
impl fmt::Display for Constraint {
    ghost output = { λ constraint. Some (constraint_name constraint) };

    fn fmt<W: fmt::Write>(&self, f: &mut fmt::Formatter<W>) -> fmt::Result {
        match self {
            Constraint::P(number) => write!(f, "P{number}"),
            Constraint::C(number) => write!(f, "C{number}"),
            Constraint::V(number) => write!(f, "V{number}"),
            Constraint::M(number) => write!(f, "M{number}"),
            Constraint::Q(number) => write!(f, "Q{number}"),
        }
    }
}
