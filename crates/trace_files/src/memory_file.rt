//! Memory files: the cells of a memory, in 16 bytes each, by ascending addresses.

ghost use Rattle.std.specs.Prelude.{◌≡◌, ◌≢◌, ◌+◌, ◌*◌, ◌≤◌, IfOk, IfErr, OnOk, IsOk, MatchResult, List, Ok, Err, length};
ghost use Rattle.goldilocks.specs.declared.Pair.{Pair};
ghost use Rattle.file_records.specs.Numbers.{AreNumbersBefore};
ghost use Rattle.trace_files.specs.MemoryFile.{SpellsMemory, AscendsBefore, IsMemoryFault, HasMemoryLength, cells_in, memory_bytes, memory_reading};
ghost use Rattle.trace_files.specs.CellList.{listed};

use crate::cell_list::MEMORY_CELL_LIMIT;
use crate::file_numbers::check_number;
use crate::{CellList, FileFault};
use file_records::{Record, read_number, read_records, write_records};
use goldilocks::Pair;
use std::alloc::{AllocError, Global};

/// The bytes of a cell.
const CELL: usize = Pair::SIZE;

/// The most bytes that a memory file may have.
pub const MEMORY_LIMIT: usize = CELL * MEMORY_CELL_LIMIT;

/// The cells that the bytes of a memory file spell: of each its address and its value, in 16 bytes, and nothing else.
///
/// Else the first of these faults, the last two entry by entry:
/// - [`FileFault::TooMany`], where there are more than [`MEMORY_LIMIT`] bytes;
/// - [`FileFault::Length`], where they are no whole number of entries;
/// - [`FileFault::NotField`], with the place of the address, or else of the value, that is p or more;
/// - [`FileFault::Order`], with the place of an address that isn't above the one before.
///
/// Memory is taken only for bytes that spell cells, and once. So [`FileFault::Memory`] comes only for these.
pub fn read_memory(alloc: Global, bytes: &[u8]) -> Result<CellList, FileFault>
    ensures spelled { IfOk result (λ list. SpellsMemory bytes.now (listed list)) }
    ensures fault { IfErr result (λ fault. fault ≢ FileFault.Memory → IsMemoryFault bytes.now fault) }

    // Where the bytes spell cells, these are answered, unless memory runs out.
    ensures complete { (cells : List Pair) → SpellsMemory bytes.now cells →
        MatchResult result (λ list. listed list ≡ cells) (λ fault. fault ≡ FileFault.Memory) }

    // The same, as the value of a function of the bytes.
    ensures reading { MatchResult result (λ list. memory_reading bytes.now ≡ Ok (listed list))
        (λ fault. fault ≢ FileFault.Memory → memory_reading bytes.now ≡ Err fault) }

    // Want of memory comes only where the bytes have no fault.
    ensures memory { IfErr result (λ fault. fault ≡ FileFault.Memory → IsOk (memory_reading bytes.now)) }
{
    check(bytes)?;
    let cells = read_records::<Pair>(alloc, bytes, bytes.len() / CELL)?;
    Ok(CellList { cells })
}

/// Whether the bytes spell cells, with no memory; else their fault.
fn check(bytes: &[u8]) -> Result<(), FileFault>
    ensures spells { OnOk result (SpellsMemory bytes.now (cells_in bytes.now)) }
    ensures fault { IfErr result (IsMemoryFault bytes.now) }
{
    if bytes.len() > MEMORY_LIMIT {
        return Err(FileFault::TooMany);
    }
    if bytes.len() % CELL != 0 {
        return Err(FileFault::Length);
    }
    for i in 0..bytes.len() / CELL {
        check_entry(bytes, i)?;
    }
    Ok(())
}

/// Whether the entry with the number `i` has numbers of the field and an address above the last, where those before it
/// do; else the fault of the bytes.
fn check_entry(bytes: &[u8], i: usize) -> Result<(), FileFault>
    requires size { HasMemoryLength bytes.now }
    requires within { 16 * i + 16 ≤ length bytes.now }
    requires numbers { AreNumbersBefore bytes.now (16 * i) }
    requires ascends { AscendsBefore bytes.now (16 * i) }
    ensures numbers { OnOk result (AreNumbersBefore bytes.now (16 * i + 16)) }
    ensures ascends { OnOk result (AscendsBefore bytes.now (16 * i + 16)) }
    ensures fault { IfErr result (IsMemoryFault bytes.now) }
{
    let place = CELL * i;
    check_number(bytes, place)?;
    check_number(bytes, place + 8)?;
    if i > 0 && read_number(bytes, place) <= read_number(bytes, place - CELL) {
        return Err(FileFault::Order(place as u64));
    }
    Ok(())
}

/// The bytes of the memory file of the cells: the only ones that spell them, and [`read_memory`] reads the cells back.
pub fn write_memory(alloc: Global, m: &CellList) -> Result<Vec<u8>, AllocError>
    ensures written { IfOk result (λ bytes. bytes.items ≡ memory_bytes (listed m.now)) }
    ensures spells { IfOk result (λ bytes. SpellsMemory bytes.items (listed m.now)) }
{
    let mut bytes = Vec::with_capacity(alloc, CELL * m.cells.len())?;
    write_records::<Pair>(&mut bytes, &m.cells)?;
    Ok(bytes)
}
