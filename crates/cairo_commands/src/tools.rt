//! What a command works with.

use std::alloc::Global;

/// What a command works with: the store of its files, and the allocator. At the exit a contract names the store as
/// `tools.exit.0`, the first of the fields.
pub(crate) struct Tools<'s, S> {
    pub(crate) store: &'s mut S,
    pub(crate) alloc: Global,
}
