//! The memory in which a run starts, and its first state.

ghost use Rattle.std.specs.Prelude.{◌≡◌, ◌+◌, ◌<◌, ◌≤◌, length, IfOk, OnOk};
ghost use Rattle.segments.specs.Memory.{IsMemory, segment_limit, with_cell};
ghost use Rattle.segments.specs.Values.{place};
ghost use Rattle.program_file.specs.Listing.{listing};
ghost use Rattle.hint_cells.specs.Limits.{extra_limit};
ghost use Rattle.builtin_segments.specs.Layout.{execution, first_builtin, builtin_count};
ghost use Rattle.builtin_segments.specs.Start.{start_stack, with_segments, with_stack, start_memory, first_state};
ghost use Rattle.builtin_segments.specs.Filling.{IsFilled, IsNamed, stack_limit};

use crate::layout::{EXECUTION, FIRST_BUILTIN, FRAME_OFFSET, builtin_count};
use goldilocks::Felt;
use program_file::{Builtins, Program, bound_laws};
use segments::{Place, PutFault, RelState, Segments, Value};
use std::alloc::{AllocError, Global};

/// The memory in which the program starts: its words, the start stack, and empty segments for its builtins and `extra`
/// more, at most 2^16. The only error is want of memory.
pub fn start_segments(alloc: Global, program: &Program, extra: u32) -> Result<Segments, AllocError>
    requires { extra ≤ extra_limit }
    ensures memory { IfOk result (λ m. m ≡ start_memory (listing program.now) extra) }
    ensures kept { IfOk result IsMemory }
{
    bound_laws(program);
    let builtins = program.builtins();
    let mut memory = Segments::new(alloc, program.words())?;
    add_segments(alloc, &mut memory, 1 + builtin_count(builtins) + extra)?;
    fill_stack(alloc, &mut memory, builtins)?;
    Ok(memory)
}

/// The state in which the program starts: at its first instruction, with ap and fp at the third cell of the execution
/// segment.
#[tactic(auto, unfolding(crate::specs::Start::first_state))]
pub fn first_state(program: &Program) -> RelState
    ensures { result ≡ first_state (listing program.now) }
{
    let frame = Place {
        seg: EXECUTION,
        off: FRAME_OFFSET,
    };
    RelState {
        pc: Place {
            seg: 0,
            off: program.start(),
        },
        ap: frame,
        fp: frame,
    }
}

/// How many cells the start stack of a program with these builtins has, from 2 to 4.
pub fn start_stack_length(builtins: Builtins) -> u32
    ensures { result ≡ length (start_stack builtins) }
{
    2 + builtin_count(builtins)
}

/// Adds so many empty segments.
fn add_segments(alloc: Global, memory: &mut Segments, more: u32) -> Result<(), AllocError>
    requires { length memory.old.sizes + more ≤ segment_limit }
    ensures { OnOk result (memory.new ≡ with_segments more memory.old) }
{
    for _ in 0..more {
        memory.add_segment(alloc)?;
    }
    Ok(())
}

/// Writes the start stack into the execution segment, which is empty.
fn fill_stack(alloc: Global, memory: &mut Segments, builtins: Builtins) -> Result<(), AllocError>
    requires filled { IsFilled memory.old 0 }
    requires there { first_builtin + builtin_count builtins ≤ length memory.old.sizes }
    ensures { OnOk result (memory.new ≡ with_stack 0 (start_stack builtins) memory.old) }
{
    let frame = Place {
        seg: EXECUTION,
        off: FRAME_OFFSET,
    };
    push(alloc, memory, 0, Value::Ptr(frame))?;
    push(alloc, memory, 1, Value::Num(Felt::ZERO))?;
    for index in 0..builtin_count(builtins) {
        let first = Place {
            seg: FIRST_BUILTIN + index,
            off: 0,
        };
        push(alloc, memory, FRAME_OFFSET + index, Value::Ptr(first))?;
    }
    Ok(())
}

/// Writes a value into the execution segment, after the cells that are held.
fn push(alloc: Global, memory: &mut Segments, off: u32, value: Value) -> Result<(), AllocError>
    requires filled { IsFilled memory.old off }
    requires low { off < stack_limit }
    requires named { IsNamed (length memory.old.sizes) value }
    ensures placed { OnOk result (memory.new ≡ with_cell memory.old (place execution off) value) }
    ensures filled { OnOk result (IsFilled memory.new (off + 1)) }
    ensures count { OnOk result (length memory.new.sizes ≡ length memory.old.sizes) }
{
    let place = Place {
        seg: EXECUTION,
        off,
    };
    match memory.put(alloc, place, value) {
        Ok(()) => Ok(()),
        Err(PutFault::Memory) => Err(AllocError),
        Err(PutFault::Refused(_)) => unreachable!(),
    }
}
