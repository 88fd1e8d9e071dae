//! A source in memory that gives pieces and fails at listed calls.

ghost use Rattle.std.specs.Prelude.{◌≡◌, ◌+◌, ◌^◌, ◌<◌, ◌≤◌, ◌↔◌, ◌++◌, drop, take, length, min, Some, IsOk, IsErr, IfOk, OnErr, Contains};
ghost use Rattle.std.specs.Io.{ReadsAtMost};
ghost use Rattle.std.specs.Io.KnownBytes.{Consumes, IsAtEnd, Keeps};
ghost use Rattle.ek_io.specs.Faults.{Rose, NeverFalls};
ghost use Rattle.ek_io.specs.Memory.{fresh_source, bytes_given, source_after, source_after_fault};

use crate::calls::Calls;
use crate::{Failed, Source};
use std::marker::Model;

/// Copies the front of the bytes from `at` on into the buffer, at most `piece` of them, and says how
/// many.
pub(crate) fn copy_piece(bytes: &[u8], at: usize, into: &mut [u8], piece: usize) -> usize
    requires { at ≤ length bytes.now }
    ensures count { result ≡ min (min (length (drop at bytes.now)) (length into.old)) piece }
    ensures within { at + result ≤ length bytes.now }
    ensures rest { drop at bytes.now ≡ take result into.new ++ drop (at + result) bytes.now }
    ensures filled { into.new ≡ take result (drop at bytes.now) ++ drop result into.old }
{
    let count = (bytes.len() - at).min(into.len()).min(piece);
    into[..count].copy_from_slice(&bytes[at..at + count]);
    count
}

/// A source that gives its bytes in pieces, and fails at the calls of a list. Contracts see it as a
/// `SourceState` of `specs/Memory.antt`.
#[derive(Drop)]
pub struct MemorySource {
    bytes: Vec<u8>,
    at: usize,
    piece: usize,
    calls: Calls,
}

impl Model for MemorySource {
    ghost use Rattle.std.specs.Prelude.{◌<◌, ◌≤◌, drop, length};
    ghost use Rattle.ek_io.specs.Memory.{SourceState};

    ghost Value = { SourceState };

    ghost view = { λ s. record {
      left = drop s.at s.bytes.items;
      piece = s.piece;
      failing = s.calls.failing.items;
      call = s.calls.next;
      faults = s.calls.faults;
    } };

    ghost invariant = { λ s. (s.at ≤ length s.bytes.items) × (0 < s.piece) };
}

impl MemorySource {
    /// A source of these bytes that gives at most `piece` of them in a call, where 0 counts as 1,
    /// and fails at the listed calls. Calls are numbered from 0, and from number 2^32 on none is
    /// listed.
    pub fn new(bytes: Vec<u8>, piece: usize, failing: Vec<u32>) -> MemorySource
        ensures { result ≡ fresh_source bytes.items piece failing.items }
    {
        MemorySource {
            bytes,
            at: 0,
            piece: piece.max(1),
            calls: Calls::new(failing),
        }
    }
}

impl Source for MemorySource {
    ghost left = { λ s. Some s.left };

    ghost faults = { λ s. s.faults };

    /// Gives the least of what is left, the buffer and the piece, where the call is not listed.
    fn read(&mut self, into: &mut [u8]) -> Result<usize, Failed>
        // Which call fails.
        ensures fails { IsErr result ↔ Contains self.old.failing self.old.call }
        ensures late { 2 ^ 32 ≤ self.old.call → IsOk result }
        ensures failed { OnErr result (self.new ≡ source_after_fault self.old) }
        ensures untouched { OnErr result (into.new ≡ into.old) }

        // How much the others give.
        ensures count { IfOk result (λ n. n ≡ bytes_given self.old (length into.old)) }
        ensures given { IfOk result (λ n. self.new ≡ source_after self.old n) }
        ensures filled { IfOk result (λ n. into.new ≡ take n self.old.left ++ drop n into.old) }

        // What every source promises.
        ensures bound { ReadsAtMost result into.new }
        ensures taken { IfOk result
            (λ n. Consumes (Some self.old.left) (Some self.new.left) (take n into.new)) }
        ensures end { IfOk result
            (λ n. n ≡ 0 → 0 < length into.new → IsAtEnd (Some self.new.left)) }
        ensures kept { OnErr result (Keeps (Some self.old.left) (Some self.new.left)) }
        ensures cause { OnErr result (Rose self.old.faults self.new.faults) }
        ensures counted { NeverFalls self.old.faults self.new.faults }
    {
        if self.calls.is_next_listed() {
            self.calls.count_fault();
            return Err(Failed);
        }
        let count = copy_piece(&self.bytes, self.at, into, self.piece);
        self.at += count;
        Ok(count)
    }
}
