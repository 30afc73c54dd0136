//! Records of a fixed size: numbers, states, cells, rows and range rows, each of so many bytes.

ghost use Rattle.std.specs.Prelude.{◌≡◌, ◌+◌, ◌*◌, ◌≤◌, ◌++◌, ℕ, List, All, IfOk, OnOk, ⊤, length, take};
ghost use Rattle.std.specs.List.{flat_map};
ghost use Rattle.goldilocks.specs.declared.Felt.{Felt};
ghost use Rattle.goldilocks.specs.Felts.{numbers};
ghost use Rattle.casm_word.specs.Transition.{registers};
ghost use Rattle.file_records.specs.Numbers.{number_bytes, numbers_bytes};
ghost use Rattle.file_records.specs.Records.{row_values, state_values, trace_state_values, range_row_values, pair_values};
ghost use Rattle.file_records.specs.Records.{records_in, values_of_bytes, value_of_bytes, row_of_bytes, state_of_bytes};
ghost use Rattle.file_records.specs.Records.{trace_state_of_bytes, range_row_of_bytes, pair_of_bytes};

use crate::numbers::{number_of, write_number};
use casm_word::State;
use cpu_rows::Row;
use goldilocks::{Felt, Pair};
use range_columns::RangeRow;
use std::alloc::{AllocError, Global};

/// How a value stands in a file. Reading takes [`SIZE`](Record::SIZE) bytes, and the impl says what is read and written.
/// That a list that is written is read back is proved for each file, in its crate.
pub trait Record {
    /// What a record holds.
    type Value: Copy;

    ghost SIZE: { ℕ };

    ghost value_in: { List ℕ → Self.Value };

    ghost spelled: { Self.Value → List ℕ };

    ghost fits: { Self.Value → Type 0 };

    /// How many bytes a record takes.
    const SIZE: usize;

    /// The value of these bytes. Each number in them is taken modulo p.
    fn read(bytes: &[u8]) -> Self::Value
        requires { length bytes.now ≡ SIZE }
        ensures { result ≡ value_in bytes.now };

    /// Appends the value's bytes.
    fn write(value: &Self::Value, out: &mut Vec<u8>) -> Result<(), AllocError>
        ensures bytes { OnOk result (out.new.items ≡ out.old.items ++ spelled value.now) }
        ensures fits { fits value.now };
}

/// The values of the first `count` records of the bytes. Memory is taken once.
pub fn read_records<R: Record>(
    alloc: Global,
    bytes: &[u8],
    count: usize,
) -> Result<Vec<R::Value>, AllocError>
    requires { R.SIZE * count ≤ length bytes.now }
    ensures { IfOk result (λ values. values.items ≡ records_in R.SIZE R.value_in count bytes.now) }
{
    let mut values = Vec::with_capacity(alloc, count)?;
    let mut rest = bytes;
    for _ in 0..count {
        let (record, behind) = rest.split_at(R::SIZE);
        values.push(R::read(record))?;
        rest = behind;
    }
    Ok(values)
}

/// Appends the values' bytes, one record after another.
pub fn write_records<R: Record>(out: &mut Vec<u8>, values: &[R::Value]) -> Result<(), AllocError>
    ensures bytes { OnOk result (out.new.items ≡ out.old.items ++ flat_map R.spelled values.now) }
    ensures fit { OnOk result (All R.fits values.now) }
{
    for value in values {
        R::write(value, out)?;
    }
    Ok(())
}

/// The values of the bytes.
fn read_values<const N: usize>(bytes: &[u8]) -> [Felt; N]
    requires { length bytes.now ≡ 8 * N }
    ensures { result ≡ values_of_bytes N bytes.now }
{
    let mut values = [Felt::ZERO; N];
    let mut rest = bytes;
    for i in 0..N {
        let (value, behind) = rest.split_at(8);
        values[i] = Felt::read(value);
        rest = behind;
    }
    values
}

/// Appends the values' bytes, one value after another.
fn write_values(out: &mut Vec<u8>, values: &[Felt]) -> Result<(), AllocError>
    ensures { OnOk result (out.new.items ≡ out.old.items ++ numbers_bytes (numbers values.now)) }
{
    for value in values {
        write_number(out, value.number)?;
    }
    Ok(())
}

#[tactic(auto, unfolding(crate::specs::Records::value_of_bytes))]
impl Record for Felt {
    type Value = Felt;

    ghost SIZE = { 8 };

    ghost value_in = { value_of_bytes };

    ghost spelled = { λ x. number_bytes x.number };

    ghost fits = { λ _. ⊤ };

    const SIZE: usize = 8;

    fn read(bytes: &[u8]) -> Felt {
        Felt::of_u128(u128::from(number_of(bytes)))
    }

    fn write(value: &Felt, out: &mut Vec<u8>) -> Result<(), AllocError> {
        write_number(out, value.number)
    }
}

#[tactic(auto, unfolding(crate::specs::Records::row_of_bytes))]
impl Record for Row {
    type Value = Row;

    ghost SIZE = { 264 };

    ghost value_in = { row_of_bytes };

    ghost spelled = { λ r. numbers_bytes (row_values r) };

    ghost fits = { λ r. length r.tilde ≡ 16 };

    const SIZE: usize = 264;

    fn read(bytes: &[u8]) -> Row {
        Row::of_values(&read_values::<33>(bytes))
    }

    fn write(value: &Row, out: &mut Vec<u8>) -> Result<(), AllocError> {
        write_values(out, &value.values())
    }
}

#[tactic(auto, unfolding(crate::specs::Records::state_of_bytes, crate::specs::Records::state_of_values))]
impl Record for State {
    type Value = State;

    ghost SIZE = { 24 };

    ghost value_in = { state_of_bytes };

    ghost spelled = { λ s. numbers_bytes (state_values s) };

    ghost fits = { λ _. ⊤ };

    const SIZE: usize = 24;

    fn read(bytes: &[u8]) -> State {
        let [pc, ap, fp] = read_values::<3>(bytes);
        State { pc, ap, fp }
    }

    fn write(value: &State, out: &mut Vec<u8>) -> Result<(), AllocError> {
        write_values(out, &[value.pc, value.ap, value.fp])
    }
}

/// A state as trace files have it: ap, fp and pc.
pub struct TraceState;

impl Record for TraceState {
    type Value = State;

    ghost SIZE = { 24 };

    ghost value_in = { trace_state_of_bytes };

    ghost spelled = { λ s. numbers_bytes (trace_state_values (registers s)) };

    ghost fits = { λ _. ⊤ };

    const SIZE: usize = 24;

    #[tactic(auto, unfolding(crate::specs::Records::trace_state_of_bytes, crate::specs::Records::trace_state_of_values))]
    fn read(bytes: &[u8]) -> State {
        let [ap, fp, pc] = read_values::<3>(bytes);
        State { pc, ap, fp }
    }

    #[tactic(auto, unfolding(casm_word::specs::Transition::registers))]
    fn write(value: &State, out: &mut Vec<u8>) -> Result<(), AllocError> {
        write_values(out, &[value.ap, value.fp, value.pc])
    }
}

#[tactic(auto, unfolding(crate::specs::Records::range_row_of_bytes, crate::specs::Records::range_row_of_values))]
impl Record for RangeRow {
    type Value = RangeRow;

    ghost SIZE = { 32 };

    ghost value_in = { range_row_of_bytes };

    ghost spelled = { λ r. numbers_bytes (range_row_values r) };

    ghost fits = { λ _. ⊤ };

    const SIZE: usize = 32;

    fn read(bytes: &[u8]) -> RangeRow {
        let [value, l0, l1, l2] = read_values::<4>(bytes);
        RangeRow { value, l0, l1, l2 }
    }

    fn write(value: &RangeRow, out: &mut Vec<u8>) -> Result<(), AllocError> {
        write_values(out, &[value.value, value.l0, value.l1, value.l2])
    }
}

#[tactic(auto, unfolding(crate::specs::Records::pair_of_bytes, crate::specs::Records::pair_of_values))]
impl Record for Pair {
    type Value = Pair;

    ghost SIZE = { 16 };

    ghost value_in = { pair_of_bytes };

    ghost spelled = { λ p. numbers_bytes (pair_values p) };

    ghost fits = { λ _. ⊤ };

    const SIZE: usize = 16;

    fn read(bytes: &[u8]) -> Pair {
        let [addr, value] = read_values::<2>(bytes);
        Pair { addr, value }
    }

    fn write(value: &Pair, out: &mut Vec<u8>) -> Result<(), AllocError> {
        write_values(out, &[value.addr, value.value])
    }
}
