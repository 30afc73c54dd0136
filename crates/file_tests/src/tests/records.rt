//! Records of a fixed size.

use super::Felt;
use casm_word::State;
use file_records::{Record, TraceState};

/// Eight bytes each, the lowest first, and the value of the field that they are read as.
const VALUES: &[([u8; 8], u64)] = &[
    ([0, 0, 0, 0, 0, 0, 0, 0], 0),
    ([2, 1, 0, 0, 0, 0, 0, 0], 258),
    ([0, 0, 0, 0, 255, 255, 255, 255], 18446744069414584320),
    ([1, 0, 0, 0, 255, 255, 255, 255], 0),
    ([255, 255, 255, 255, 255, 255, 255, 255], 4294967294),
];

/// The numbers 1, 2 and 3.
#[rattlefmt::skip]
const THREE: &[u8] = &[
    1, 0, 0, 0, 0, 0, 0, 0, 2, 0, 0, 0, 0, 0, 0, 0, 3, 0, 0, 0, 0, 0, 0, 0,
];

#[test]
fn numbers_are_read_modulo_p(rt: HostRuntime) {
    for (bytes, value) in VALUES {
        assert!(rt; Felt::read(bytes).number == *value, "{value}");
    }
}

#[test]
fn states_stand_in_two_orders(rt: HostRuntime) {
    let state = State::read(THREE);
    assert!(rt; (state.pc.number, state.ap.number, state.fp.number) == (1, 2, 3));
    let state = TraceState::read(THREE);
    assert!(rt; (state.ap.number, state.fp.number, state.pc.number) == (1, 2, 3));
}
