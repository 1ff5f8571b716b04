ghost use Rattle.std.specs.Prelude.{◌≡◌, ℕ, ◌-◌, ◌<◌, ◌⊎◌, List, [], Some, length, min, vec_len, vec_capacity, IsErr, IfOk, OnErr, Contains};
ghost use Rattle.std.specs.Io.{WritesAtMost};
ghost use Rattle.std.specs.Io.KnownBytes.{WriteAppends};
ghost use Rattle.gsi_main.specs.Faults.{HasCause, next_count};
ghost use Rattle.gsi_main.specs.MemSink.{MemWrites};

use crate::sink::Sink;
use n1ql_value::Failed;
use std::alloc::Global;
use std::marker::Model;

/// A sink in memory that can be told to fail.
#[derive(Debug, Drop)]
pub struct MemSink {
    bytes: Vec<u8>,
    most: usize,
    fails: Vec<u64>,
    calls: u64,
    faults: u64,
}

impl Model for MemSink {
    ghost Value = { MemWrites };

    ghost view = { λ s. record { held = s.bytes.items; room = vec_capacity s.bytes - vec_len s.bytes; most = s.most; fails = s.fails.items; calls = s.calls; faults = s.faults } };

    ghost invariant = { λ s. 0 < s.most };
}

impl MemSink {
    /// An empty sink that takes at most `most` bytes a call, and fails at the calls whose numbers, from 1 on,
    /// are among `fails`.
    pub fn new(alloc: Global, most: usize, fails: Vec<u64>) -> MemSink
        requires { 0 < most }
        ensures { result ≡ record { held = []; room = 0; most = most; fails = fails.items; calls = 0; faults = 0 } }
    {
        MemSink {
            bytes: Vec::new(alloc),
            most,
            fails,
            calls: 0,
            faults: 0,
        }
    }

    /// The bytes held.
    pub fn bytes(&self) -> &[u8]
        ensures { result.now ≡ self.now.held }
    {
        self.bytes.as_slice()
    }
}

impl Sink for MemSink {
    ghost held = { λ s. Some s.held };

    ghost faults = { λ s. s.faults };

    /// Fails at the calls that are to fail, and where there is no room for the bytes and memory is refused. Then nothing is taken.
    fn write(&mut self, piece: &[u8]) -> Result<usize, Failed>
        requires { 0 < length piece.now }
        ensures within { WritesAtMost result piece.now }
        ensures moves { IfOk result (λ n. 0 < n) }
        ensures bytes { WriteAppends (Some self.old.held) (Some self.new.held) result piece.now }
        ensures cause { HasCause self.old.faults self.new.faults result }
        ensures failed { OnErr result (Contains self.old.fails (next_count self.old.calls)
            ⊎ (self.old.room < min self.old.most (length piece.now))) }
        ensures told { Contains self.old.fails (next_count self.old.calls) → IsErr result }
        ensures taken { IfOk result (λ n. n ≡ min self.old.most (length piece.now)) }
        ensures numbered { self.new.calls ≡ next_count self.old.calls }
        ensures most { self.new.most ≡ self.old.most }
        ensures fails { self.new.fails ≡ self.old.fails }
    {
        self.calls = self.calls.saturating_add(1);
        if self.fails.contains(&self.calls) {
            self.faults = self.faults.saturating_add(1);
            return Err(Failed);
        }
        let count = self.most.min(piece.len());
        if self.bytes.extend_from_slice(&piece[..count]).is_err() {
            self.faults = self.faults.saturating_add(1);
            return Err(Failed);
        }
        Ok(count)
    }
}
