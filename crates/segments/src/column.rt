//! The cells of one segment.
ghost use Rattle.std.specs.Prelude.{◌≡◌, ◌+◌, ◌<◌, ◌^◌, [], length, map, slice_index_or, Some, None, IfOk, OnOk, OnErr, IsOk};
ghost use Rattle.segments.specs.Columns.{slot_value, word_value, with_value, written_at};

use crate::{Place, Value};
use goldilocks::Felt;
use std::alloc::{AllocError, Global};
use std::marker::Model;

/// One cell as it is kept, in 16 bytes.
#[derive(Clone, Copy)]
enum Slot {
    Hole,
    Number(Felt),
    Pointer(Place),
}

const _: () = prove!(size_of::<Slot>() == 16);

impl Slot {
    /// The slot that holds a value.
    fn with(value: Value) -> Slot
        ensures { slot_value result ≡ Some value }
    {
        match value {
            Value::Num(number) => Slot::Number(number),
            Value::Ptr(place) => Slot::Pointer(place),
        }
    }

    /// The value that it holds.
    fn value(self) -> Option<Value>
        ensures { result ≡ slot_value self }
    {
        match self {
            Slot::Hole => None,
            Slot::Number(number) => Some(Value::Num(number)),
            Slot::Pointer(place) => Some(Value::Ptr(place)),
        }
    }
}

/// The cells of a segment up to its size, with and without a value.
#[derive(Drop)]
pub struct Column {
    slots: Vec<Slot>,
}

impl Model for Column {
    ghost use Rattle.std.specs.Prelude.{List, Option, map};
    ghost use Rattle.segments.specs.declared.Value.{Value as Kept};

    ghost Value = { List (Option Kept) };

    ghost use Rattle.segments.specs.Columns.{slot_value};

    ghost view = { λ c. map slot_value c.slots.items };
}

impl Column {
    /// The column with no cell.
    pub fn new(alloc: Global) -> Column
        ensures { result ≡ [] }
    {
        Column {
            slots: Vec::new(alloc),
        }
    }

    /// The column of these numbers.
    pub fn of_words(alloc: Global, words: &[Felt]) -> Result<Column, AllocError>
        ensures { IfOk result (λ column. column ≡ map word_value words.now) }
    {
        Ok(Column {
            slots: word_slots(alloc, words)?,
        })
    }

    /// How many cells lie up to the last one that holds a value.
    pub fn len(&self) -> usize
        ensures { result ≡ length self.now }
    {
        self.slots.len()
    }

    /// The value of the cell at an offset.
    pub fn get(&self, off: usize) -> Option<Value>
        ensures { result ≡ slice_index_or self.now off None }
    {
        if off < self.slots.len() {
            self.slots[off].value()
        } else {
            None
        }
    }

    /// Writes a value at an offset; cells that are new before it hold nothing.
    pub fn put(&mut self, off: usize, value: Value) -> Result<(), AllocError>
        requires { off < 2 ^ 32 }
        ensures ok { OnOk result (self.new ≡ with_value self.old off value) }
        ensures err { OnErr result (self.new ≡ self.old) }
        ensures in_place { off < length self.old → IsOk result }
    {
        write_slot(&mut self.slots, off, Slot::with(value))
    }
}

/// Writes a slot at an index of the list, which grows up to there.
fn write_slot(slots: &mut Vec<Slot>, off: usize, slot: Slot) -> Result<(), AllocError>
    requires { off < 2 ^ 32 }
    ensures ok { OnOk result (slots.new.items ≡ written_at slots.old.items off slot) }
    ensures err { OnErr result (slots.new.items ≡ slots.old.items) }
    ensures in_place { off < length slots.old.items → IsOk result }
{
    if off < slots.len() {
        slots[off] = slot;
        return Ok(());
    }
    make_room(slots, off + 1 - slots.len())?;
    slots.resize(off + 1, Slot::Hole)?;
    slots[off] = slot;
    Ok(())
}

/// The slots that hold these numbers.
fn word_slots(alloc: Global, words: &[Felt]) -> Result<Vec<Slot>, AllocError>
    ensures { IfOk result (λ slots. slots.items ≡ map (λ word. Slot.Number word) words.now) }
{
    words.iter().map(|word| Slot::Number(*word)).collect(alloc)
}

/// Makes room for more slots, and for at most half as many as there are beyond that: so a cell takes at most 24 bytes.
fn make_room(slots: &mut Vec<Slot>, more: usize) -> Result<(), AllocError>
    ensures items { slots.new.items ≡ slots.old.items }
{
    let len = slots.len();
    if slots.capacity() - len < more {
        slots.reserve_exact(more.max(len / 2))?;
    }
    Ok(())
}
