//! A sink in memory that takes pieces, fails at listed calls, and has all its room from the start.

ghost use Rattle.std.specs.Prelude.{◌≡◌, ◌+◌, ◌^◌, ◌<◌, ◌≤◌, ◌↔◌, ◌++◌, take, length, vec_len, vec_capacity, Some, IsErr, IfOk, OnErr};
ghost use Rattle.std.specs.Io.{WritesAtMost};
ghost use Rattle.std.specs.Io.KnownBytes.{Appends, Keeps};
ghost use Rattle.ek_io.specs.Faults.{Rose, NeverFalls};
ghost use Rattle.ek_io.specs.Memory.{fresh_sink, sink_room, bytes_taken, HasNoRoom, WriteFails, sink_after, sink_after_fault};

use crate::calls::Calls;
use crate::{Failed, Sink};
use std::alloc::{AllocError, Global};
use std::marker::Model;

/// The bytes that a sink holds at most.
const ROOM: usize = 16_777_216;

/// A sink that takes bytes in pieces, and fails at the calls of a list. Contracts see it as a
/// `SinkState` of `specs/Memory.antt`. No call needs memory once it is made.
#[derive(Drop)]
pub struct MemorySink {
    bytes: Vec<u8>,
    piece: usize,
    calls: Calls,
}

impl Model for MemorySink {
    ghost use Rattle.std.specs.Prelude.{◌≡◌, ◌<◌, vec_capacity};
    ghost use Rattle.ek_io.specs.Memory.{SinkState, sink_room};

    ghost Value = { SinkState };

    ghost view = { λ s. record {
      written = s.bytes.items;
      piece = s.piece;
      failing = s.calls.failing.items;
      call = s.calls.next;
      faults = s.calls.faults;
    } };

    ghost invariant = { λ s. (vec_capacity s.bytes ≡ sink_room) × (0 < s.piece) };
}

/// Appends bytes for which there is room.
fn append_reserved(bytes: &mut Vec<u8>, more: &[u8])
    requires { vec_len bytes.old + length more.now ≤ vec_capacity bytes.old }
    ensures items { bytes.new.items ≡ bytes.old.items ++ more.now }
    ensures len { vec_len bytes.new ≡ vec_len bytes.old + length more.now }
    ensures capacity { vec_capacity bytes.new ≡ vec_capacity bytes.old }
{
    for byte in more {
        bytes.push_reserved(*byte);
    }
}

impl MemorySink {
    /// An empty sink that takes at most `piece` bytes in a call, where 0 counts as 1, and fails at
    /// the listed calls. Calls are numbered from 0, and from number 2^32 on none is listed. Room for
    /// 16,777,216 bytes is reserved here; a write of some bytes for which none is left fails.
    pub fn new(alloc: Global, piece: usize, failing: Vec<u32>) -> Result<MemorySink, AllocError>
        ensures { IfOk result (λ sink. sink ≡ fresh_sink piece failing.items) }
    {
        Ok(MemorySink {
            bytes: Vec::with_capacity(alloc, ROOM)?,
            piece: piece.max(1),
            calls: Calls::new(failing),
        })
    }

    /// What was written.
    pub fn bytes(&self) -> &[u8]
        ensures written { result.now ≡ self.now.written }
        ensures fits { length result.now ≤ sink_room }
    {
        &self.bytes
    }
}

impl Sink for MemorySink {
    ghost written = { λ s. Some s.written };

    ghost faults = { λ s. s.faults };

    /// Takes the least of the bytes offered, the sink's own piece and the room, where the call is
    /// not listed and there is room.
    fn write(&mut self, from: &[u8]) -> Result<usize, Failed>
        // Which call fails.
        ensures fails { IsErr result ↔ WriteFails self.old from.now }
        ensures late { 2 ^ 32 ≤ self.old.call → IsErr result → HasNoRoom self.old from.now }
        ensures failed { OnErr result (self.new ≡ sink_after_fault self.old) }

        // How much the others take.
        ensures count { IfOk result (λ n. n ≡ bytes_taken self.old (length from.now)) }
        ensures given { IfOk result (λ n. self.new ≡ sink_after self.old (take n from.now)) }

        // What every sink promises.
        ensures bound { WritesAtMost result from.now }
        ensures taken { IfOk result
            (λ n. Appends (Some self.old.written) (Some self.new.written) (take n from.now)) }
        ensures progress { IfOk result (λ n. 0 < length from.now → 0 < n) }
        ensures kept { OnErr result (Keeps (Some self.old.written) (Some self.new.written)) }
        ensures cause { OnErr result (Rose self.old.faults self.new.faults) }
        ensures counted { NeverFalls self.old.faults self.new.faults }
    {
        let room = ROOM - self.bytes.len();
        let count = from.len().min(self.piece).min(room);
        if self.calls.is_next_listed() || (room == 0 && !from.is_empty()) {
            self.calls.count_fault();
            return Err(Failed);
        }
        append_reserved(&mut self.bytes, &from[..count]);
        Ok(count)
    }
}
