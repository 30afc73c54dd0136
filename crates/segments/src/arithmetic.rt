//! Sums, differences, products and quotients of values, and places moved by a number of cells.
ghost use Rattle.std.specs.Prelude.{◌≡◌, ◌≤◌, ℕ, List, sum, IfOk, IfSome};
ghost use Rattle.goldilocks.specs.Field.{field_add, field_sub, field_mul, field_of_int};
ghost use Rattle.segments.specs.Values.{pointer, value_sum, value_difference, value_product, value_quotient, moved_place};
ghost use Rattle.segments.specs.Memory.{total_limit};
ghost use Rattle.segments.specs.Relocation.{address, relocated};

use crate::{Place, Value};
use goldilocks::Felt;

/// Why there is no value.
#[derive(Clone, Copy, Debug, PartialEq, Eq)]
pub enum ArithFault {
    /// Both values of a sum are pointers.
    TwoPointers,
    /// The answer would be a pointer whose offset is 2^32 or more.
    OffsetRange,
    /// A pointer is taken from a number.
    NumberMinusPointer,
    /// Pointers into two segments have no difference.
    OtherSegment,
    /// A factor is a pointer.
    PointerProduct,
    /// The dividend or the divisor is a pointer.
    PointerQuotient,
    /// A number is divided by 0.
    DivByZero,
}

/// The sum of two numbers, or of a pointer and a number in either order: the number is added to the offset, modulo p.
///
/// [`ArithFault::TwoPointers`] for two pointers, [`ArithFault::OffsetRange`] where the offset would be 2^32 or more.
#[tactic(auto, unfolding(crate::specs::Values::value_sum))]
pub fn add_value(a: Value, b: Value) -> Result<Value, ArithFault>
    ensures answer { result ≡ value_sum a b }

    // Wherever the segments come to lie, the sum's number is the sum of the numbers.
    ensures relocates { (sizes : List ℕ) → sum sizes ≤ total_limit →
        IfOk result (λ v. relocated sizes v ≡ field_add (relocated sizes a) (relocated sizes b)) }
{
    match a {
        Value::Num(x) => match b {
            Value::Num(y) => Ok(Value::Num(x.add(y))),
            Value::Ptr(q) => pointer(q.seg, offset(q).add(x)),
        },
        Value::Ptr(p) => match b {
            Value::Num(y) => pointer(p.seg, offset(p).add(y)),
            Value::Ptr(_) => Err(ArithFault::TwoPointers),
        },
    }
}

/// The difference of two numbers, of the offsets of two pointers into one segment, or of a pointer and a number: the
/// number is taken from the offset, modulo p.
///
/// [`ArithFault::NumberMinusPointer`] for a number and a pointer, [`ArithFault::OtherSegment`] for pointers into two
/// segments, [`ArithFault::OffsetRange`] where the offset would be 2^32 or more.
#[tactic(auto, unfolding(crate::specs::Values::value_difference))]
pub fn sub_value(a: Value, b: Value) -> Result<Value, ArithFault>
    ensures answer { result ≡ value_difference a b }

    // Wherever the segments come to lie, the difference's number is the difference of the numbers.
    ensures relocates { (sizes : List ℕ) → sum sizes ≤ total_limit →
        IfOk result (λ v. relocated sizes v ≡ field_sub (relocated sizes a) (relocated sizes b)) }
{
    match a {
        Value::Num(x) => match b {
            Value::Num(y) => Ok(Value::Num(x.sub(y))),
            Value::Ptr(_) => Err(ArithFault::NumberMinusPointer),
        },
        Value::Ptr(p) => match b {
            Value::Num(y) => pointer(p.seg, offset(p).sub(y)),
            Value::Ptr(q) => {
                if p.seg == q.seg {
                    Ok(Value::Num(offset(p).sub(offset(q))))
                } else {
                    Err(ArithFault::OtherSegment)
                }
            }
        },
    }
}

/// The product of two numbers; [`ArithFault::PointerProduct`] where either is a pointer.
#[tactic(auto, unfolding(crate::specs::Values::value_product))]
pub fn mul_value(a: Value, b: Value) -> Result<Value, ArithFault>
    ensures answer { result ≡ value_product a b }

    // Wherever the segments come to lie, the product's number is the product of the numbers.
    ensures relocates { (sizes : List ℕ) →
        IfOk result (λ v. relocated sizes v ≡ field_mul (relocated sizes a) (relocated sizes b)) }
{
    match a {
        Value::Num(x) => match b {
            Value::Num(y) => Ok(Value::Num(x.mul(y))),
            Value::Ptr(_) => Err(ArithFault::PointerProduct),
        },
        Value::Ptr(_) => Err(ArithFault::PointerProduct),
    }
}

/// The quotient of two numbers.
///
/// [`ArithFault::PointerQuotient`] where either is a pointer, [`ArithFault::DivByZero`] where the second number is 0.
#[tactic(auto, unfolding(crate::specs::Values::value_quotient))]
pub fn div_value(a: Value, b: Value) -> Result<Value, ArithFault>
    ensures answer { result ≡ value_quotient a b }

    // Wherever the segments come to lie, the quotient's number times the divisor's is the dividend's.
    ensures relocates { (sizes : List ℕ) →
        IfOk result (λ v. field_mul (relocated sizes v) (relocated sizes b) ≡ relocated sizes a) }
{
    match a {
        Value::Num(x) => match b {
            Value::Num(y) => match x.div(y) {
                Some(quotient) => Ok(Value::Num(quotient)),
                None => Err(ArithFault::DivByZero),
            },
            Value::Ptr(_) => Err(ArithFault::PointerQuotient),
        },
        Value::Ptr(_) => Err(ArithFault::PointerQuotient),
    }
}

/// The place `by` cells further on, or `None` exactly where its offset would leave 0 to 2^32 - 1.
#[tactic(auto, unfolding(crate::specs::Values::place_at, crate::specs::Values::moved_place))]
pub fn shift(place: Place, by: i16) -> Option<Place>
    ensures answer { result ≡ moved_place place by }

    // Wherever the segments come to lie, the address moves by as much.
    ensures relocates { (sizes : List ℕ) → sum sizes ≤ total_limit →
        IfSome result (λ moved. address sizes moved ≡ field_add (address sizes place) (field_of_int by)) }
{
    let off = i64::from(place.off) + i64::from(by);
    match u32::try_from(off) {
        Ok(off) => Some(Place {
            seg: place.seg,
            off,
        }),
        Err(_) => None,
    }
}

/// The offset of a place as a number of the field.
fn offset(place: Place) -> Felt
    ensures { result.number ≡ place.off }
{
    Felt {
        number: u64::from(place.off),
    }
}

/// The pointer into a segment at an offset.
#[tactic(auto, unfolding(crate::specs::Values::pointer))]
fn pointer(seg: u32, off: Felt) -> Result<Value, ArithFault>
    ensures { result ≡ pointer seg off.number }
{
    match u32::try_from(off.number) {
        Ok(off) => Ok(Value::Ptr(Place { seg, off })),
        Err(_) => Err(ArithFault::OffsetRange),
    }
}
