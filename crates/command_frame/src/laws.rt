//! Laws of the definitions: functions that do nothing, and whose contracts say what always holds.

ghost use Rattle.command_frame.specs.Evidence.{CountsNoFault};

use file_port::{Sink, Store, SureSink, SureStore};

/// Over a store and a sink in memory that never fail no call counts a fault, so a call is answered by the reply unless
/// memory ran out.
pub fn sure_laws()
    ensures { (store store_after : SureStore) (sink sink_after : SureSink) →
        CountsNoFault (⟦<SureStore as Store>⟧.seen store) (⟦<SureStore as Store>⟧.seen store_after)
        (⟦<SureSink as Sink>⟧.seen sink) (⟦<SureSink as Sink>⟧.seen sink_after) }
{}
