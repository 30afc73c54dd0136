//! Places, values and faults as they are printed.
use crate::{ArithFault, Place, PutCause, PutFault, Value};
use std::error::Error;
use std::fmt;

impl fmt::Display for Place {
    ghost use Rattle.std.specs.Prelude.{Some};
    ghost use Rattle.segments.specs.Shown.{place_text};

    ghost output = { λ p. Some (place_text p) };

    fn fmt<W: fmt::Write>(&self, f: &mut fmt::Formatter<W>) -> fmt::Result {
        write!(f, "{}:{}", self.seg, self.off)
    }
}

impl fmt::Display for Value {
    ghost use Rattle.std.specs.Prelude.{Some};
    ghost use Rattle.segments.specs.Shown.{value_text};

    ghost output = { λ v. Some (value_text v) };

    fn fmt<W: fmt::Write>(&self, f: &mut fmt::Formatter<W>) -> fmt::Result {
        match self {
            Value::Num(number) => write!(f, "{}", number.number),
            Value::Ptr(place) => write!(f, "{place}"),
        }
    }
}

impl fmt::Display for ArithFault {
    ghost use Rattle.std.specs.Prelude.{Some};
    ghost use Rattle.segments.specs.Shown.{fault_text};

    ghost output = { λ fault. Some (fault_text fault) };

    fn fmt<W: fmt::Write>(&self, f: &mut fmt::Formatter<W>) -> fmt::Result {
        match self {
            ArithFault::TwoPointers => write!(f, "TwoPointers"),
            ArithFault::OffsetRange => write!(f, "OffsetRange"),
            ArithFault::NumberMinusPointer => write!(f, "NumberMinusPointer"),
            ArithFault::OtherSegment => write!(f, "OtherSegment"),
            ArithFault::PointerProduct => write!(f, "PointerProduct"),
            ArithFault::PointerQuotient => write!(f, "PointerQuotient"),
            ArithFault::DivByZero => write!(f, "DivByZero"),
        }
    }
}

impl Error for ArithFault {}

impl fmt::Display for PutCause {
    ghost use Rattle.std.specs.Prelude.{Some};
    ghost use Rattle.segments.specs.Shown.{cause_text};

    ghost output = { λ cause. Some (cause_text cause) };

    fn fmt<W: fmt::Write>(&self, f: &mut fmt::Formatter<W>) -> fmt::Result {
        match self {
            PutCause::NoSegment => write!(f, "NoSegment"),
            PutCause::Fixed => write!(f, "Fixed"),
            PutCause::CellLimit => write!(f, "CellLimit"),
            PutCause::Conflict(kept) => write!(f, "Conflict {kept}"),
        }
    }
}

impl Error for PutCause {}

impl fmt::Display for PutFault {
    ghost use Rattle.std.specs.Prelude.{Some};
    ghost use Rattle.segments.specs.Shown.{put_text};

    ghost output = { λ fault. Some (put_text fault) };

    fn fmt<W: fmt::Write>(&self, f: &mut fmt::Formatter<W>) -> fmt::Result {
        match self {
            PutFault::Refused(cause) => write!(f, "{cause}"),
            PutFault::Memory => write!(f, "Memory"),
        }
    }
}

impl Error for PutFault {}
