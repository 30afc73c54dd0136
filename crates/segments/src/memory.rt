//! The memory of a run.
#![tactic(auto, unfolding(crate::specs::Memory::conflict, crate::specs::Values::same_value))]

ghost use Rattle.std.specs.Prelude.{◌≡◌, ◌<◌, ◌≤◌, ◌^◌, ◌↔◌, ◌≢◌, ◌&&◌, None, Some, Err, length, sum, IfOk, OnOk, OnErr, IsOk, IsNone, IsTrue};
ghost use Rattle.segments.specs.Memory.{IsMemory, Grows, segment_limit, cell, size, has_segment, names_segment, program_memory, with_segment, with_cell, conflict, put_cause};
ghost use Rattle.segments.specs.Columns.{HasOffset};
ghost use Rattle.segments.specs.declared.memory.PutCause.{PutCause};

use crate::column::Column;
use crate::{Place, Value};
use goldilocks::Felt;
use std::alloc::{AllocError, Global};
use std::marker::Model;

/// The sizes of all segments add up to at most this.
pub const TOTAL_LIMIT: u32 = 2_097_152;

/// There are at most this many segments.
pub const SEGMENT_LIMIT: u32 = 1_048_576;

/// Why a value may not go to a place, in the order in which the causes are looked at.
#[derive(Clone, Copy, Debug, PartialEq, Eq)]
pub enum PutCause {
    /// The place's segment isn't there, or the value is a pointer into one that isn't.
    NoSegment,
    /// The place lies past the end of segment 0, which is fixed.
    Fixed,
    /// The sizes of all segments would add up to more than [`TOTAL_LIMIT`].
    CellLimit,
    /// The cell holds another value, which stays.
    Conflict(Value),
}

/// Why [`Segments::put`] changed nothing.
#[derive(Clone, Copy, Debug, PartialEq, Eq)]
pub enum PutFault {
    /// The value may not go there.
    Refused(PutCause),
    /// There was no memory.
    Memory,
}

impl From<PutCause> for PutFault {
    ghost use Rattle.std.specs.Prelude.{◌≡◌};
    ghost use Rattle.segments.specs.declared.memory.PutFault.{PutFault};

    ghost from_gives = { λ cause fault. fault ≡ PutFault.Refused cause };

    fn from(cause: PutCause) -> PutFault {
        PutFault::Refused(cause)
    }
}

impl From<AllocError> for PutFault {
    ghost use Rattle.std.specs.Prelude.{◌≡◌};
    ghost use Rattle.segments.specs.declared.memory.PutFault.{PutFault};

    ghost from_gives = { λ _ fault. fault ≡ PutFault.Memory };

    fn from(_: AllocError) -> PutFault {
        PutFault::Memory
    }
}

/// The memory of a run: segments that grow, and cells that are written once.
///
/// It is seen as the list of the segments' sizes and a finite map from places to values. A segment without a held cell
/// has the size 0, another its greatest held offset and one more. Segment 0 is the program's and keeps its size.
#[derive(Drop)]
pub struct Segments {
    columns: Vec<Column>,
    total: u32,
}

impl Model for Segments {
    ghost use Rattle.std.specs.Prelude.{◌≡◌, sum};
    ghost use Rattle.segments.specs.Memory.{RunMemory, IsMemory};
    ghost use Rattle.segments.specs.Coding.{memory_code};

    ghost Value = { RunMemory };

    ghost coded = { memory_code };

    ghost use Rattle.segments.specs.Columns.{kept_memory};

    ghost view = { λ s. kept_memory s.columns.items };

    ghost invariant = { λ s. IsMemory (kept_memory s.columns.items) × (s.total ≡ sum (kept_memory s.columns.items).sizes) };
}

#[tactic(auto, using(crate::proofs::Columns::kept), unfolding(crate::specs::Memory::has_segment))]
impl Segments {
    /// The memory at first: segment 0 holds the program's words, of which there are at most 2^18, and no other segment
    /// is there. The only error is want of memory.
    pub fn new(alloc: Global, words: &[Felt]) -> Result<Segments, AllocError>
        requires { length words.now ≤ 2 ^ 18 }
        ensures memory { IfOk result IsMemory }
        ensures program { IfOk result (λ s. s ≡ program_memory words.now) }
    {
        let mut columns = Vec::new(alloc);
        columns.push(Column::of_words(alloc, words)?)?;
        Ok(Segments {
            columns,
            total: words.len() as u32,
        })
    }

    /// Adds an empty segment, and answers its number. There are fewer than [`SEGMENT_LIMIT`] before. The only error is
    /// want of memory, and then all is as before.
    pub fn add_segment(&mut self, alloc: Global) -> Result<u32, AllocError>
        requires { length self.old.sizes < segment_limit }
        ensures memory { IsMemory self.new }
        ensures number { IfOk result (λ seg. seg ≡ length self.old.sizes) }
        ensures ok { OnOk result (self.new ≡ with_segment self.old) }
        ensures err { OnErr result (self.new ≡ self.old) }
        ensures grows { Grows self.old self.new }
    {
        let number = self.columns.len() as u32;
        self.columns.push(Column::new(alloc))?;
        Ok(number)
    }

    /// How many segments there are.
    pub fn count(&self) -> u32
        ensures memory { IsMemory self.now }
        ensures count { result ≡ length self.now.sizes }
    {
        self.columns.len() as u32
    }

    /// One more than the greatest offset of the segment that holds a value, or 0. The segment is there.
    pub fn size(&self, seg: u32) -> u32
        requires { seg < length self.now.sizes }
        ensures memory { IsMemory self.now }
        ensures size { result ≡ size self.now seg }
    {
        self.columns[seg as usize].len() as u32
    }

    /// The sizes of all segments together, at most [`TOTAL_LIMIT`].
    pub fn total(&self) -> u32
        ensures memory { IsMemory self.now }
        ensures total { result ≡ sum self.now.sizes }
    {
        self.total
    }

    /// The value at a place, or `None` exactly where its cell holds none.
    pub fn get(&self, place: Place) -> Option<Value>
        ensures memory { IsMemory self.now }
        ensures value { result ≡ cell self.now place }
    {
        let seg = place.seg as usize;
        if seg < self.columns.len() {
            self.columns[seg].get(place.off as usize)
        } else {
            None
        }
    }

    /// Writes a value into a cell that holds none. The same value again changes nothing and is no fault.
    ///
    /// The first of these that comes up is answered: [`PutCause::NoSegment`], [`PutCause::Fixed`],
    /// [`PutCause::CellLimit`], [`PutCause::Conflict`] with the value that stays. [`PutFault::Memory`] may come where the
    /// segment grows. After each of them all is as before.
    pub fn put(&mut self, _alloc: Global, place: Place, value: Value) -> Result<(), PutFault>
        ensures memory { IsMemory self.new }
        ensures ok { OnOk result (self.new ≡ with_cell self.old place value) }
        ensures err { OnErr result (self.new ≡ self.old) }
        ensures grows { Grows self.old self.new }
        ensures fixed { size self.new 0 ≡ size self.old 0 }

        // The same value again changes nothing, and is no fault.
        ensures again { cell self.old place ≡ Some value → self.new ≡ self.old }
        ensures again_ok { cell self.old place ≡ Some value → IsOk result }

        // The first cause decides; memory may be short only where the segment grows.
        ensures accepted { IsOk result → put_cause self.old place value ≡ None }
        ensures refused { (cause : PutCause) → (result ≡ Err (PutFault.Refused cause))
            ↔ (put_cause self.old place value ≡ Some cause) }
        ensures in_place { place.off < size self.old place.seg → result ≢ Err PutFault.Memory }
    {
        if let Some(cause) = self.put_cause(place, value) {
            return Err(cause.into());
        }
        let column = &mut self.columns[place.seg as usize];
        let growth = (place.off as usize + 1).saturating_sub(column.len());
        column.put(place.off as usize, value)?;
        self.total += growth as u32;
        Ok(())
    }

    /// Why the value may not go to the place, if it may not.
    fn put_cause(&self, place: Place, value: Value) -> Option<PutCause>
        ensures cause { result ≡ put_cause self.now place value }
        ensures offset { IsNone result → HasOffset value }
    {
        if !self.are_there(place, value) {
            return Some(PutCause::NoSegment);
        }
        let size = self.size(place.seg);
        if place.off < size {
            return conflict(self.get(place), value);
        }
        if place.seg == 0 {
            return Some(PutCause::Fixed);
        }
        if place.off - size >= TOTAL_LIMIT - self.total() {
            return Some(PutCause::CellLimit);
        }
        None
    }

    /// Whether the place's segment and the value's are there.
    fn are_there(&self, place: Place, value: Value) -> bool
        ensures there { result ≡ (has_segment self.now place.seg && names_segment self.now value) }
        ensures offset { IsTrue result → HasOffset value }
    {
        self.has_segment(place.seg) && self.names_segment(value)
    }

    /// Whether the segment is there.
    fn has_segment(&self, seg: u32) -> bool
        ensures { result ≡ has_segment self.now seg }
    {
        (seg as usize) < self.columns.len()
    }

    /// Whether the value's segment is there; a number has none.
    #[tactic(auto, using(crate::proofs::Columns::kept), unfolding(crate::specs::Memory::names_segment))]
    fn names_segment(&self, value: Value) -> bool
        ensures named { result ≡ names_segment self.now value }
        ensures offset { HasOffset value }
    {
        match value {
            Value::Num(_) => true,
            Value::Ptr(place) => self.has_segment(place.seg),
        }
    }
}

/// The cause that a held value is, where another is to be written.
fn conflict(held: Option<Value>, value: Value) -> Option<PutCause>
    ensures { result ≡ conflict held value }
{
    match held {
        None => None,
        Some(kept) => {
            if kept == value {
                None
            } else {
                Some(PutCause::Conflict(kept))
            }
        }
    }
}
