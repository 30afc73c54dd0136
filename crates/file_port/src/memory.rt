//! A store and a sink in memory that fail at the calls that a test lists.

ghost use Rattle.std.specs.Prelude.{◌≡◌, ◌↔◌, [], min, length, Some, IfSome, IfOk, OnErr, IsTrue, refl};
ghost use Rattle.std.specs.Option.{option_copied};
ghost use Rattle.std.specs.Result.{IsErrOf};
ghost use Rattle.std.specs.Io.KnownBytes.{Keeps};
ghost use Rattle.file_port.specs.Files.{files_of, named_bytes, file_at};
ghost use Rattle.file_port.specs.Counts.{Counts};
ghost use Rattle.file_port.specs.Seen.{BeginsRead, ReadsNext, Replaces, Puts};
ghost use Rattle.file_port.specs.Kept.{CallsListed, IsNextListed, call_number};

use crate::ports::{PortError, Sink, Store};
use crate::sure::{SureSink, SureStore};
use std::alloc::Global;

/// Which calls are to fail, and how many were made and have failed so far.
#[derive(Drop)]
pub struct CallList {
    fails: Vec<u32>,
    made: u64,
    faults: u64,
}

impl CallList {
    fn new(fails: Vec<u32>) -> CallList
        ensures fails { result.fails.items ≡ fails.items }
        ensures made { result.made ≡ 0 }
        ensures faults { result.faults ≡ 0 }
    {
        CallList {
            fails,
            made: 0,
            faults: 0,
        }
    }

    /// Counts one more call, and answers whether it is to fail. Then its fault is counted, too.
    fn next_fails(&mut self) -> bool
        ensures listed { IsTrue result ↔ IsNextListed self.old.fails.items self.old.made }
        ensures made { self.new.made ≡ call_number self.old.made }
        ensures kept { self.new.fails.items ≡ self.old.fails.items }
        ensures faults { Counts self.old.faults self.new.faults (IsTrue result) }
    {
        self.made = self.made.saturating_add(1);
        let number = self.made;
        let listed = self.fails.iter().any(|call| u64::from(*call) == number);
        if listed {
            self.faults = self.faults.saturating_add(1);
        }
        listed
    }
}

/// Files in memory, for tests. It tells all that it holds, and fails at the calls that it is given.
#[derive(Drop)]
pub struct MemoryStore {
    store: SureStore,
    calls: CallList,
    torn: u64,
}

impl MemoryStore {
    ghost use Rattle.file_port.specs.Kept.{fresh_store, listed_calls, calls_made};

    /// A store of these files whose calls with the numbers `fails` fail. All calls are numbered,
    /// from 1 on. Of equal names the last counts.
    pub fn new(files: Vec<(String, Vec<u8>)>, fails: Vec<u32>) -> MemoryStore
        ensures seen { ⟦<MemoryStore as Store>⟧.seen result ≡ fresh_store (files_of (named_bytes files.items)) }
        ensures fails { listed_calls result ≡ fails.items }
        ensures made { calls_made result ≡ 0 }
    {
        MemoryStore {
            store: SureStore::new(files),
            calls: CallList::new(fails),
            torn: 0,
        }
    }

    /// The bytes of the file `name`, or `None` exactly where it is missing. It is no numbered call.
    pub fn file(&self, name: &str) -> Option<&[u8]>
        ensures { IfSome (⟦<MemoryStore as Store>⟧.seen self.now).files
            (λ files. option_copied result ≡ file_at files name.now) }
    {
        self.store.file(name)
    }
}

impl Store for MemoryStore {
    ghost use Rattle.file_port.specs.Kept.{seen_of, listed_calls, calls_made};

    ghost seen = { λ s. record (seen_of s.store) { faults = s.calls.faults; torn = s.torn } };

    fn begin_read(&mut self, alloc: Global, name: &str) -> Result<bool, PortError>
        ensures begins { BeginsRead name.now (⟦<MemoryStore as Store>⟧.seen self.old)
            (⟦<MemoryStore as Store>⟧.seen self.new) result }
        // Exactly the listed calls fail.
        ensures listed { CallsListed (listed_calls self.old) (calls_made self.old) (listed_calls self.new)
            (calls_made self.new) result }
    {
        if self.calls.next_fails() {
            self.store.end_read();
            return Err(PortError::Failed);
        }
        self.store.begin_read(alloc, name)
    }

    fn read(&mut self, alloc: Global, buf: &mut [u8]) -> Result<usize, PortError>
        ensures reads { ReadsNext buf.new (⟦<MemoryStore as Store>⟧.seen self.old)
            (⟦<MemoryStore as Store>⟧.seen self.new) result }
        // Exactly the listed calls fail.
        ensures listed { CallsListed (listed_calls self.old) (calls_made self.old) (listed_calls self.new)
            (calls_made self.new) result }
        // As many bytes as fit.
        ensures fits { IfOk result (λ n. IfSome (⟦<MemoryStore as Store>⟧.seen self.old).reading
            (λ left. n ≡ min (length left) (length buf.new))) }
    {
        if self.calls.next_fails() {
            self.store.end_read();
            return Err(PortError::Failed);
        }
        self.store.read(alloc, buf)
    }

    fn replace(&mut self, alloc: Global, name: &str, bytes: &[u8]) -> Result<(), PortError>
        ensures replaces { Replaces name.now bytes.now (⟦<MemoryStore as Store>⟧.seen self.old)
            (⟦<MemoryStore as Store>⟧.seen self.new) result }
        // Exactly the listed calls fail, and leave all files as they were.
        ensures listed { CallsListed (listed_calls self.old) (calls_made self.old) (listed_calls self.new)
            (calls_made self.new) result }
        ensures kept { OnErr result ((⟦<MemoryStore as Store>⟧.seen self.new).files
            ≡ (⟦<MemoryStore as Store>⟧.seen self.old).files) }
    {
        if self.calls.next_fails() {
            self.store.end_read();
            self.torn = self.torn.saturating_add(1);
            return Err(PortError::Failed);
        }
        self.store.replace(alloc, name, bytes)
    }

    ghost tells_both = { λ _ _. refl };
}

/// A sink in memory, for tests. It tells all that was written, and fails at the calls that it is
/// given, at which it writes nothing.
#[derive(Drop)]
pub struct MemorySink {
    sink: SureSink,
    calls: CallList,
}

impl MemorySink {
    ghost use Rattle.file_port.specs.Kept.{listed_puts, puts_made};

    /// A sink to which nothing was written, whose calls with the numbers `fails` fail. Calls are
    /// numbered from 1 on. Its calls of `put` take their memory from `alloc`.
    pub fn new(alloc: Global, fails: Vec<u32>) -> MemorySink
        ensures seen { ⟦<MemorySink as Sink>⟧.seen result ≡ record { written = Some []; faults = 0 } }
        ensures fails { listed_puts result ≡ fails.items }
        ensures made { puts_made result ≡ 0 }
    {
        MemorySink {
            sink: SureSink::new(alloc),
            calls: CallList::new(fails),
        }
    }

    /// What was written so far. It is no numbered call.
    pub fn bytes(&self) -> &[u8]
        ensures { (⟦<MemorySink as Sink>⟧.seen self.now).written ≡ Some result.now }
    {
        self.sink.bytes()
    }
}

impl Sink for MemorySink {
    ghost use Rattle.std.specs.Prelude.{Some};
    ghost use Rattle.file_port.specs.Kept.{listed_puts, puts_made};

    ghost seen = { λ s. record { written = Some s.sink.written.items; faults = s.calls.faults } };

    fn put(&mut self, alloc: Global, bytes: &[u8]) -> Result<(), PortError>
        ensures puts { Puts bytes.now (⟦<MemorySink as Sink>⟧.seen self.old)
            (⟦<MemorySink as Sink>⟧.seen self.new) result }
        // Exactly the listed calls fail, and write nothing.
        ensures listed { CallsListed (listed_puts self.old) (puts_made self.old) (listed_puts self.new)
            (puts_made self.new) result }
        ensures err { OnErr result (Keeps (⟦<MemorySink as Sink>⟧.seen self.old).written
            (⟦<MemorySink as Sink>⟧.seen self.new).written) }
    {
        if self.calls.next_fails() {
            return Err(PortError::Failed);
        }
        self.sink.put(alloc, bytes)
    }
}
