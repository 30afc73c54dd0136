//! Looking into a file's JSON value.
ghost use Rattle.std.specs.Prelude.{◌≡◌, map, option_map, IfOk};
ghost use Rattle.serde_json.specs.View.{view};
ghost use Rattle.json_fields.specs.Values as values;
ghost use Rattle.json_fields.specs.FieldTexts.{felt_of_text};

use goldilocks::{Felt, Pair};
use serde_json::Value;
use std::alloc::{AllocError, Global};

/// The JSON value of the bytes, or `None` exactly where they are no JSON text: no UTF-8, no JSON, or nested deeper
/// than 127.
#[tactic(auto, unfolding(crate::specs::Values::json_of))]
pub fn read_json(alloc: Global, bytes: &[u8]) -> Result<Option<Value>, AllocError>
    ensures { IfOk result (λ found. option_map view found ≡ values.json_of bytes.now) }
{
    let Ok(text) = str::from_utf8(bytes) else {
        return Ok(None);
    };
    match Value::from_str(alloc, text) {
        Ok(value) => Ok(Some(value)),
        Err(error) => {
            if error.is_memory() {
                Err(AllocError)
            } else {
                Ok(None)
            }
        }
    }
}

/// The text at a key of an object, or `None` where there is none.
#[tactic(auto, unfolding(crate::specs::Values::text_at))]
pub fn text_at<'a>(top: &'a Value, key: &str) -> Option<&'a str>
    ensures { option_map (λ s. s.now) result ≡ values.text_at key.now (view top.now) }
{
    top.get(key).and_then(Value::as_str)
}

/// The whole number at a key of an object, or `None` where there is none from 0 to 2^64 - 1.
#[tactic(auto, unfolding(crate::specs::Values::whole_at, crate::specs::Values::whole_in))]
pub fn whole_at(top: &Value, key: &str) -> Option<u64>
    ensures { result ≡ values.whole_at key.now (view top.now) }
{
    top.get(key).and_then(Value::as_u64)
}

/// The entries of the list at a key of an object, or `None` where there is no list.
#[tactic(auto, unfolding(crate::specs::Values::list_at))]
pub fn list_at<'a>(top: &'a Value, key: &str) -> Option<&'a [Value]>
    ensures { option_map (λ entries. map view entries.now) result ≡ values.list_at key.now (view top.now) }
{
    top.get(key).and_then(list_in)
}

/// The number of the field whose text stands at a key of an object, or `None` where there is none.
#[tactic(auto, unfolding(crate::specs::Values::felt_at))]
pub fn felt_at(top: &Value, key: &str) -> Option<Felt>
    ensures { result ≡ values.felt_at key.now (view top.now) }
{
    top.get(key).and_then(felt_in)
}

/// The number of the field that the value is the text of, or `None` where it is no such text.
#[tactic(auto, unfolding(crate::specs::Values::felt_in))]
pub fn felt_in(value: &Value) -> Option<Felt>
    ensures { result ≡ values.felt_in (view value.now) }
{
    value.as_str().and_then(felt_of_text)
}

/// The pair that the value is, as a list of two numbers of the field, or `None` where it is no such list.
#[tactic(auto, unfolding(crate::specs::Values::pair_in))]
pub fn pair_in(value: &Value) -> Option<Pair>
    ensures { result ≡ values.pair_in (view value.now) }
{
    match list_in(value)? {
        [addr, value] => {
            let addr = felt_in(addr)?;
            let value = felt_in(value)?;
            Some(Pair { addr, value })
        }
        _ => None,
    }
}

/// The entries of the value, where it is a list.
#[tactic(auto, unfolding(crate::specs::Values::list_in))]
fn list_in(value: &Value) -> Option<&[Value]>
    ensures { option_map (λ entries. map view entries.now) result ≡ values.list_in (view value.now) }
{
    let entries = value.as_array()?;
    Some(entries.as_slice())
}

/// The number of the field that the text writes.
#[tactic(auto, unfolding(crate::specs::FieldTexts::felt_of_text))]
fn felt_of_text(text: &str) -> Option<Felt>
    ensures { result ≡ felt_of_text text.now }
{
    Felt::read_text(text.as_bytes()).ok()
}
