// A sink in memory.
ghost use Rattle.std.specs.Prelude.{◌≡◌, ◌<◌, ◌≤◌, ◌++◌, length, take, is_err, IfOk, OnOk, OnErr};
ghost use Rattle.core_io.specs.Causes.{next_count};
ghost use Rattle.core_io.specs.States.{KeepsCount, WriteFailed, Writes};
ghost use Rattle.core_io.specs.Calls.{after_call, with_failing};
ghost use Rattle.core_io.specs.Sinks.{empty_sink, state_of, taken_of, write_fails};

use crate::calls::Calls;
use crate::{Failed, Sink};
use std::alloc::{AllocError, Global};
use std::marker::Model;

/// A sink that keeps what is written, `room` bytes in all and at most `most` of each piece.
#[derive(Drop)]
pub struct MemSink {
    bytes: Vec<u8>,
    room: usize,
    most: usize,
    faults: u64,
    calls: Calls,
}

impl Model for MemSink {
    ghost use Rattle.std.specs.Prelude.{◌≤◌, length, vec_capacity};
    ghost use Rattle.core_io.specs.Sinks.{SinkView};

    ghost Value = { SinkView };

    ghost view = { λ s. record { written = s.bytes.items; room = s.room; most = s.most; faults = s.faults; calls = s.calls } };

    ghost invariant = { λ s. (1 ≤ s.most) × (length s.bytes.items ≤ s.room) × (s.room ≤ vec_capacity s.bytes) };
}

impl MemSink {
    /// A sink in which nothing is written. It takes the memory for the whole room at once, so that no write grows it.
    pub fn make(alloc: Global, room: usize, most: usize) -> Result<MemSink, AllocError>
        requires { 1 ≤ most }
        ensures { IfOk result (λ sink. sink ≡ empty_sink room most) }
    {
        let bytes = Vec::with_capacity(alloc, room)?;
        Ok(MemSink {
            bytes,
            room,
            most,
            faults: 0,
            calls: Calls::new(alloc),
        })
    }

    /// The write of that number fails, counted from 1, beside those given before. Where memory runs out nothing
    /// changes.
    pub fn fail_at(&mut self, call: u64) -> Result<(), AllocError>
        ensures ok { OnOk result (self.new ≡ record self.old
            { calls = with_failing self.old.calls call }) }
        ensures err { OnErr result (self.new ≡ self.old) }
    {
        self.calls.fail_at(call)
    }

    /// All bytes written so far.
    pub fn written(&self) -> &[u8]
        ensures { result.now ≡ self.now.written }
    {
        &self.bytes
    }
}

impl Sink for MemSink {
    ghost state = { state_of };

    /// Fails exactly where the number of this call is listed, or where no room is left for a piece that is not empty.
    fn write(&mut self, piece: &[u8]) -> Result<usize, Failed>
        ensures fits { IfOk result (λ n. n ≤ length piece.now) }
        ensures some { IfOk result (λ n. 0 < length piece.now → 0 < n) }
        ensures appends { IfOk result (λ n. Writes (state_of self.old) (state_of self.new)
            (take n piece.now)) }
        ensures unchanged { OnErr result ((state_of self.new).held ≡ (state_of self.old).held) }
        ensures counts { KeepsCount (state_of self.old) (state_of self.new) }
        ensures cause { OnErr result (WriteFailed (state_of self.old) (state_of self.new)) }

        // Beyond what each sink promises: when it fails, how much it takes, and what it is afterwards.
        ensures fails { is_err result ≡ write_fails self.old piece.now }
        ensures takes { IfOk result (λ n. n ≡ taken_of self.old piece.now) }
        ensures ok { IfOk result (λ n. self.new ≡ record self.old
            { written = self.old.written ++ take n piece.now; calls = after_call self.old.calls }) }
        ensures err { OnErr result (self.new ≡ record self.old
            { faults = next_count self.old.faults; calls = after_call self.old.calls }) }
    {
        let room_left = self.room - self.bytes.len();
        let n = piece.len().min(self.most).min(room_left);
        if self.calls.fails_now() || (n == 0 && !piece.is_empty()) {
            self.faults = self.faults.saturating_add(1);
            return Err(Failed);
        }
        self.bytes.extend_from_slice(&piece[..n]).unwrap();
        Ok(n)
    }
}
