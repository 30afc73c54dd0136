//! Trace files: the states of a run, in 24 bytes each.

ghost use Rattle.std.specs.Prelude.{◌≡◌, ◌≢◌, ◌≤◌, IfOk, IfErr, OnOk, IsOk, MatchResult, List, Ok, Err, map, length};
ghost use Rattle.casm_word.specs.Transition.{Registers, registers};
ghost use Rattle.file_records.specs.Numbers.{AreNumbersBefore};
ghost use Rattle.trace_files.specs.TraceFile.{SpellsTrace, IsTraceFault, states_in, trace_bytes, trace_reading, state_limit};

use crate::FileFault;
use crate::file_numbers::check_number;
use casm_word::State;
use file_records::{Record, TraceState, read_records, write_records};
use std::alloc::{AllocError, Global};

/// The most states that a trace file may have: those of 2^20 steps.
pub const STATE_LIMIT: usize = (1 << 20) + 1;

/// The bytes of a state.
const STATE: usize = TraceState::SIZE;

/// The most bytes that a trace file may have.
pub const TRACE_LIMIT: usize = STATE * STATE_LIMIT;

/// The states that the bytes of a trace file spell: of each ap, fp and pc, in 24 bytes, and nothing else.
///
/// Else the first of these faults:
/// - [`FileFault::TooMany`], where there are more than [`TRACE_LIMIT`] bytes;
/// - [`FileFault::Length`], where they are no whole number of states, or less than two;
/// - [`FileFault::NotField`], with the place of the first number of p or more.
///
/// Memory is taken only for bytes that spell states, and once. So [`FileFault::Memory`] comes only for these.
pub fn read_trace(alloc: Global, bytes: &[u8]) -> Result<Vec<State>, FileFault>
    ensures spelled { IfOk result (λ states. SpellsTrace bytes.now (map registers states.items)) }
    ensures fault { IfErr result (λ fault. fault ≢ FileFault.Memory → IsTraceFault bytes.now fault) }

    // Where the bytes spell states, these are answered, unless memory runs out.
    ensures complete { (states : List Registers) → SpellsTrace bytes.now states →
        MatchResult result (λ found. map registers found.items ≡ states) (λ fault. fault ≡ FileFault.Memory) }

    // The same, as the value of a function of the bytes.
    ensures reading { MatchResult result (λ states. trace_reading bytes.now ≡ Ok (map registers states.items))
        (λ fault. fault ≢ FileFault.Memory → trace_reading bytes.now ≡ Err fault) }

    // Want of memory comes only where the bytes have no fault.
    ensures memory { IfErr result (λ fault. fault ≡ FileFault.Memory → IsOk (trace_reading bytes.now)) }
{
    check(bytes)?;
    let states = read_records::<TraceState>(alloc, bytes, bytes.len() / STATE)?;
    Ok(states)
}

/// Whether the bytes spell states, with no memory; else their fault.
fn check(bytes: &[u8]) -> Result<(), FileFault>
    ensures spells { OnOk result (SpellsTrace bytes.now (states_in bytes.now)) }
    ensures numbers { OnOk result (AreNumbersBefore bytes.now (length bytes.now)) }
    ensures fault { IfErr result (IsTraceFault bytes.now) }
{
    if bytes.len() > TRACE_LIMIT {
        return Err(FileFault::TooMany);
    }
    if bytes.len() % STATE != 0 || bytes.len() < 2 * STATE {
        return Err(FileFault::Length);
    }
    for k in 0..bytes.len() / 8 {
        check_number(bytes, 8 * k)?;
    }
    Ok(())
}

/// The bytes of the trace file of the states: the only ones that spell them, and [`read_trace`] reads the states back.
/// There are 2 to 2^20 + 1 states.
pub fn write_trace(alloc: Global, states: &[State]) -> Result<Vec<u8>, AllocError>
    requires least { 2 ≤ length states.now }
    requires most { length states.now ≤ state_limit }
    ensures written { IfOk result (λ bytes. bytes.items ≡ trace_bytes (map registers states.now)) }
    ensures spells { IfOk result (λ bytes. SpellsTrace bytes.items (map registers states.now)) }
{
    let mut bytes = Vec::with_capacity(alloc, STATE * states.len())?;
    write_records::<TraceState>(&mut bytes, states)?;
    Ok(bytes)
}
