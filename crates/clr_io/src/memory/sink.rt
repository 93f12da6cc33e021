// Bytes kept in memory, in one list.
ghost use Rattle.std.specs.Prelude.{◌≡◌, ◌+◌, ◌<◌, ◌≤◌, [], length, IfOk, OnErr, OnOk, Some, vec_capacity};
ghost use Rattle.std.specs.Io.KnownBytes.{WriteAppends};
ghost use Rattle.clr_io.specs.Causes.{HasCause};

use super::calls::Calls;
use crate::{Failed, Sink};
use std::alloc::{AllocError, Global};

/// A sink that keeps in memory what was written. It takes its memory when it is made.
///
/// A write takes the least of `piece`, the piece's length and the room left. It fails at the chosen
/// calls, and where no room is left for a piece that isn't empty, and at no other.
#[derive(Drop)]
pub struct MemorySink {
    bytes: Vec<u8>,
    room: usize,
    piece: usize,
    calls: Calls,
    ghost piece_is: { 1 ≤ piece },
    ghost reserved: { room + length bytes.items ≤ vec_capacity bytes },
}

impl MemorySink {
    ghost use Rattle.clr_io.specs.MemorySink.{IsNewSink};

    /// An empty sink with room for `room` bytes, which takes at most `piece` of them at a time, and
    /// whose calls of the numbers `fail`, counted from 1, are faults.
    pub fn new(
        alloc: Global,
        room: usize,
        piece: usize,
        fail: Vec<u64>,
    ) -> Result<MemorySink, AllocError>
        requires { 1 ≤ piece }
        ensures written { IfOk result (λ s. ⟦<MemorySink as Sink>⟧.written s ≡ Some []) }
        ensures around { IfOk result (λ s. ⟦<MemorySink as Sink>⟧.around s ≡ Some []) }
        ensures faults { IfOk result (λ s. ⟦<MemorySink as Sink>⟧.faults s ≡ 0) }
        ensures fresh { IfOk result (λ s. IsNewSink s room piece fail.items) }
    {
        Ok(MemorySink {
            bytes: Vec::with_capacity(alloc, room)?,
            room,
            piece,
            calls: Calls::new(fail),
        })
    }

    /// What was written.
    pub fn bytes(&self) -> &[u8]
        ensures { ⟦<MemorySink as Sink>⟧.written self.now ≡ Some result.now }
    {
        &self.bytes
    }
}

impl Sink for MemorySink {
    ghost use Rattle.std.specs.Prelude.{Some, []};
    ghost use Rattle.clr_io.specs.MemorySink.{IsWritten};

    ghost written = { λ s. Some s.bytes.items };

    ghost around = { λ _. Some [] };

    ghost faults = { λ s. s.calls.faults.count };

    ghost faults_fit = { λ s. s.calls.faults.fits };

    // The clauses of `Sink::write`, and what this sink adds.
    fn write(&mut self, piece: &[u8]) -> Result<usize, Failed>
        ensures count { IfOk result (λ n. n ≤ length piece.now) }
        ensures some { 0 < length piece.now → IfOk result (λ n. 1 ≤ n) }
        ensures bytes { WriteAppends (⟦<MemorySink as Sink>⟧.written self.old) (⟦<MemorySink as Sink>⟧.written self.new) result piece.now }
        ensures empty { piece.now ≡ [] → OnOk result ((⟦<MemorySink as Sink>⟧.written self.new ≡ ⟦<MemorySink as Sink>⟧.written self.old) × (⟦<MemorySink as Sink>⟧.faults self.new ≡ ⟦<MemorySink as Sink>⟧.faults self.old)) }
        ensures kept { OnErr result (⟦<MemorySink as Sink>⟧.written self.new ≡ ⟦<MemorySink as Sink>⟧.written self.old) }
        ensures around { ⟦<MemorySink as Sink>⟧.around self.new ≡ ⟦<MemorySink as Sink>⟧.around self.old }
        ensures cause { HasCause (⟦<MemorySink as Sink>⟧.faults self.old) (⟦<MemorySink as Sink>⟧.faults self.new) result }
        ensures exact { IsWritten self.old self.new piece.now result }
    {
        self.calls.begin()?;
        if self.room == 0 && !piece.is_empty() {
            return Err(self.calls.fault());
        }
        let count = self.piece.min(piece.len()).min(self.room);
        self.room -= count;
        self.bytes.extend_from_slice(&piece[..count]).unwrap();
        Ok(count)
    }
}
