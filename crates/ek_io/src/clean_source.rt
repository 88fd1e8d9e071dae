//! A source in memory that never fails.

ghost use Rattle.std.specs.Prelude.{◌≡◌, ◌<◌, ◌++◌, drop, take, length, min, Some, Ok, IfOk};
ghost use Rattle.std.specs.Io.{ReadsAtMost};
ghost use Rattle.std.specs.Io.KnownBytes.{Consumes, IsAtEnd};

use crate::memory_source::copy_piece;
use crate::{Failed, Source};
use std::marker::Model;

/// A source that never fails and gives as much as the buffer takes. Contracts see it as the bytes
/// that are left.
#[derive(Drop)]
pub struct CleanSource {
    bytes: Vec<u8>,
    at: usize,
}

impl Model for CleanSource {
    ghost use Rattle.std.specs.Prelude.{ℕ, ◌≤◌, List, drop, length};

    ghost Value = { List ℕ };

    ghost view = { λ s. drop s.at s.bytes.items };

    ghost invariant = { λ s. s.at ≤ length s.bytes.items };
}

impl CleanSource {
    /// A source of these bytes.
    pub fn new(bytes: Vec<u8>) -> CleanSource
        ensures { result ≡ bytes.items }
    {
        CleanSource { bytes, at: 0 }
    }
}

impl Source for CleanSource {
    ghost left = { λ s. Some s };

    ghost faults = { λ _. 0 };

    /// Gives the lesser of what is left and the buffer.
    fn read(&mut self, into: &mut [u8]) -> Result<usize, Failed>
        ensures count { result ≡ Ok (min (length self.old) (length into.old)) }
        ensures given { IfOk result (λ n. self.new ≡ drop n self.old) }
        ensures filled { IfOk result (λ n. into.new ≡ take n self.old ++ drop n into.old) }

        // What every source promises, where no call fails.
        ensures bound { ReadsAtMost result into.new }
        ensures taken { IfOk result
            (λ n. Consumes (Some self.old) (Some self.new) (take n into.new)) }
        ensures end { IfOk result (λ n. n ≡ 0 → 0 < length into.new → IsAtEnd (Some self.new)) }
    {
        let count = copy_piece(&self.bytes, self.at, into, usize::MAX);
        self.at += count;
        Ok(count)
    }
}
