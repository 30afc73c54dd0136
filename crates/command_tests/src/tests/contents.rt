//! What files have, as rows of tables say it.

use super::vectors::FOUR_STEPS_PUBLIC;
use super::{MEMORY, NO_MEMORY};
use std::alloc::{AllocError, Global};
use std::process::Abort;

/// The bytes of a file.
#[derive(Clone, Copy)]
pub enum Bytes {
    /// There is no file.
    Absent,
    /// Those of a text.
    Text(&'static str),
    /// These.
    Raw(&'static [u8]),
    /// So many of one byte.
    Long(u8, usize),
    /// A text, then another one so many times, then a third.
    Repeated(&'static str, &'static str, usize, &'static str),
    /// Eight for each number.
    Numbers(&'static [u64]),
    /// Those of numbers with another number at a place.
    But(&'static [u64], usize, u64),
    /// Those of the memory of the four steps, with these changes.
    Memory(&'static [Cell]),
    /// Only the first so many bytes of numbers.
    First(&'static [u64], usize),
    /// Those of tables with these numbers, after a change.
    Tables(&'static [u64], Change),
    /// Those of tables with these parts.
    Parts(&'static [Part]),
    /// Those of the public input of the four steps, with members behind its own. Of equal keys the last one counts.
    Member(&'static str),
}

/// An address, and the value that its cell has, or `None` where there is no cell.
pub type Cell = (u64, Option<u64>);

/// A change of a tables file.
#[derive(Clone, Copy)]
pub enum Change {
    None,
    /// Only so many bytes are left.
    Cut(usize),
    /// A byte follows.
    Longer,
    /// The byte at this place is another.
    Byte(usize),
    /// The number at this place behind the text is this one.
    Number(usize, u64),
}

/// A part of the numbers of tables.
#[derive(Clone, Copy)]
pub enum Part {
    /// These numbers.
    Numbers(&'static [u64]),
    /// Of these numbers those from one place up to another.
    Between(&'static [u64], usize, usize),
    /// So many numbers, each one more than the one before, from the first on.
    Run(u64, u64),
    /// So many cells of value 0, the addresses being such a run.
    Cells(u64, u64),
    /// The numbers of each run, from its first one to its last.
    Runs(&'static [(u64, u64)]),
}

/// Appends eight bytes for each number.
fn push_numbers(bytes: &mut Vec<u8>, numbers: &[u64]) -> Result<(), AllocError> {
    for number in numbers {
        bytes.extend_from_slice(&number.to_le_bytes())?;
    }
    Ok(())
}

/// Appends so many numbers from the first on, each with these bytes behind it.
fn push_run(bytes: &mut Vec<u8>, first: u64, count: u64, behind: &[u8]) -> Result<(), AllocError> {
    for k in 0..count {
        bytes.extend_from_slice(&first.saturating_add(k).to_le_bytes())?;
        bytes.extend_from_slice(behind)?;
    }
    Ok(())
}

/// Appends the numbers of each run, from its first one to its last.
fn push_runs(bytes: &mut Vec<u8>, runs: &[(u64, u64)]) -> Result<(), AllocError> {
    for (first, last) in runs {
        let count = last.saturating_sub(*first).saturating_add(1);
        push_run(bytes, *first, count, &[])?;
    }
    Ok(())
}

fn push_part(bytes: &mut Vec<u8>, part: Part) -> Result<(), AllocError> {
    match part {
        Part::Numbers(numbers) => push_numbers(bytes, numbers),
        Part::Between(numbers, from, to) => {
            push_numbers(bytes, numbers.get(from..to).unwrap_or(&[]))
        }
        Part::Run(first, count) => push_run(bytes, first, count, &[]),
        Part::Cells(first, count) => push_run(bytes, first, count, &[0; 8]),
        Part::Runs(runs) => push_runs(bytes, runs),
    }
}

/// The bytes of these numbers, eight for each.
pub fn bytes_of(rt: &impl Abort, alloc: Global, numbers: &[u64]) -> Vec<u8> {
    let mut bytes = Vec::new(alloc);
    push_numbers(&mut bytes, numbers).expect(rt, NO_MEMORY);
    bytes
}

/// The bytes of tables of these parts.
fn parts(rt: &impl Abort, alloc: Global, parts: &[Part]) -> Vec<u8> {
    let mut bytes = copied(rt, alloc, b"CAIROGT1");
    for part in parts {
        push_part(&mut bytes, *part).expect(rt, NO_MEMORY);
    }
    bytes
}

/// Another number at a place behind the text.
fn put_number(bytes: &mut [u8], place: usize, number: u64) {
    let from = place.saturating_add(1).saturating_mul(8);
    for (byte, other) in bytes.iter_mut().skip(from).zip(number.to_le_bytes()) {
        *byte = other;
    }
}

/// Another byte at a place.
fn put_byte(bytes: &mut [u8], place: usize) {
    if let Some(byte) = bytes.get_mut(place) {
        *byte ^= 1;
    }
}

/// The tables file of these numbers, after a change.
fn tables(rt: &impl Abort, alloc: Global, numbers: &'static [u64], change: Change) -> Vec<u8> {
    let mut bytes = parts(rt, alloc, &[Part::Numbers(numbers)]);
    match change {
        Change::None => {}
        Change::Cut(length) => bytes.truncate(length),
        Change::Longer => bytes.push(0).expect(rt, NO_MEMORY),
        Change::Byte(place) => put_byte(&mut bytes, place),
        Change::Number(place, number) => put_number(&mut bytes, place, number),
    }
    bytes
}

/// These bytes.
pub fn copied(rt: &impl Abort, alloc: Global, bytes: &[u8]) -> Vec<u8> {
    Vec::from_slice(alloc, bytes).expect(rt, NO_MEMORY)
}

fn long(rt: &impl Abort, alloc: Global, byte: u8, length: usize) -> Vec<u8> {
    vec![in alloc; byte; length].expect(rt, NO_MEMORY)
}

fn repeated(
    alloc: Global,
    front: &str,
    text: &str,
    count: usize,
    back: &str,
) -> Result<Vec<u8>, AllocError> {
    let mut bytes = Vec::from_slice(alloc, front.as_bytes())?;
    for _ in 0..count {
        bytes.extend_from_slice(text.as_bytes())?;
    }
    bytes.extend_from_slice(back.as_bytes())?;
    Ok(bytes)
}

fn first(rt: &impl Abort, alloc: Global, numbers: &[u64], length: usize) -> Vec<u8> {
    let mut bytes = bytes_of(rt, alloc, numbers);
    bytes.truncate(length);
    bytes
}

/// These numbers, with another one at a place.
fn but(rt: &impl Abort, alloc: Global, numbers: &[u64], place: usize, number: u64) -> Vec<u8> {
    let mut changed = Vec::from_slice(alloc, numbers).expect(rt, NO_MEMORY);
    if let Some(old) = changed.get_mut(place) {
        *old = number;
    }
    bytes_of(rt, alloc, &changed)
}

/// The addresses that memories are looked at here: those of the four steps up to 14, and others.
const ADDRESSES: &[u64] = &[
    1, 2, 3, 4, 5, 6, 7, 8, 9, 10, 11, 12, 13, 14, 15, 16, 17, 2097168,
];

/// The value at an address of the four steps.
fn value_of_steps(address: u64) -> Option<u64> {
    let cell = MEMORY
        .chunks_exact(2)
        .find(|cell| cell.first() == Some(&address))?;
    cell.get(1).copied()
}

/// The value at an address of the four steps, after the changes.
fn value_at(address: u64, changes: &[Cell]) -> Option<u64> {
    match changes.iter().find(|change| change.0 == address) {
        Some(change) => change.1,
        None => value_of_steps(address),
    }
}

/// The memory of the four steps with these changes.
fn memory_with(rt: &impl Abort, alloc: Global, changes: &[Cell]) -> Vec<u8> {
    let mut bytes = Vec::new(alloc);
    for address in ADDRESSES {
        if let Some(value) = value_at(*address, changes) {
            push_numbers(&mut bytes, &[*address, value]).expect(rt, NO_MEMORY);
        }
    }
    bytes
}

/// The public input of the four steps with these members behind its own.
fn with_member(rt: &impl Abort, alloc: Global, members: &str) -> Vec<u8> {
    let mut public = copied(rt, alloc, FOUR_STEPS_PUBLIC.as_bytes());
    public.pop();
    for text in [",", members, "}"] {
        public
            .extend_from_slice(text.as_bytes())
            .expect(rt, NO_MEMORY);
    }
    public
}

/// The bytes that are said.
pub fn said(rt: &impl Abort, alloc: Global, bytes: Bytes) -> Vec<u8> {
    match bytes {
        Bytes::Absent => Vec::new(alloc),
        Bytes::Text(text) => copied(rt, alloc, text.as_bytes()),
        Bytes::Raw(bytes) => copied(rt, alloc, bytes),
        Bytes::Long(byte, length) => long(rt, alloc, byte, length),
        Bytes::Repeated(front, text, count, back) => {
            repeated(alloc, front, text, count, back).expect(rt, NO_MEMORY)
        }
        Bytes::Numbers(numbers) => bytes_of(rt, alloc, numbers),
        Bytes::But(numbers, place, number) => but(rt, alloc, numbers, place, number),
        Bytes::Memory(changes) => memory_with(rt, alloc, changes),
        Bytes::First(numbers, length) => first(rt, alloc, numbers, length),
        Bytes::Tables(numbers, change) => tables(rt, alloc, numbers, change),
        Bytes::Parts(list) => parts(rt, alloc, list),
        Bytes::Member(members) => with_member(rt, alloc, members),
    }
}
